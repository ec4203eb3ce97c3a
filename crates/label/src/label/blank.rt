// The label that fills memory where no other stands yet.
ghost use Rattle.std.specs.Prelude.{◌≡◌};
ghost use Rattle.label.specs.Labels.{zero_label};

use super::Label;

impl Default for Label {
    ghost is_default = { λ l. l ≡ zero_label };

    fn default() -> Label {
        Label {
            b0: b'0',
            b1: b' ',
            b2: b' ',
            b3: b' ',
            b4: b' ',
            b5: b' ',
            b6: b' ',
            b7: b' ',
        }
    }
}
