// Reading, writing, typing and ordering labels.
ghost use Rattle.std.specs.Prelude.{◌≡◌, take, Decides};
ghost use Rattle.label.specs.Labels.{bytes_of, label_of, ReadExactly, AllShaped};
ghost use Rattle.label.specs.Orders.{bytes_order, key_of, KeysFollow};
ghost use Rattle.label.specs.Signs.{lawful};
ghost use Rattle.label.specs.Typed.{typed_label, kept_length};

use super::Label;
use crate::fault::TextFault;
use crate::scan::Scan;
use std::cmp::Ordering;

// Whether at least one sign byte and then blanks stand in the bytes.
#[tactic(auto, using(crate::proofs::Scanning::scan_lawful))]
fn is_lawful(bytes: &[u8]) -> bool
    ensures { result ≡ lawful bytes.now }
{
    Scan::over(bytes).is_whole()
}

// A text without its trailing blanks.
fn without_blanks(text: &[u8]) -> &[u8]
    ensures { result.now ≡ take (kept_length text.now) text.now }
{
    let blanks = text.iter().rev().take_while(|byte| **byte == b' ').count();
    &text[..text.len() - blanks]
}

impl Label {
    // The label that stands in eight bytes.
    #[tactic(auto, using(crate::proofs::Reading::eight_lawful, crate::proofs::Reading::read_exact, crate::proofs::Reading::all_shaped))]
    pub fn read(bytes: &[u8]) -> Option<Label>
        ensures value { result ≡ label_of bytes.now }
        ensures exact { ReadExactly bytes.now result }
        ensures shaped { AllShaped }
    {
        match *bytes {
            [b0, b1, b2, b3, b4, b5, b6, b7] if is_lawful(bytes) => Some(Label {
                b0,
                b1,
                b2,
                b3,
                b4,
                b5,
                b6,
                b7,
            }),
            _ => None,
        }
    }

    // Its eight bytes.
    pub fn bytes(self) -> [u8; 8]
        ensures value { result ≡ bytes_of self }
    {
        [
            self.b0, self.b1, self.b2, self.b3, self.b4, self.b5, self.b6, self.b7,
        ]
    }

    // The label that a text gives: trailing blanks are lost, small letters become capitals.
    #[tactic(auto, using(crate::proofs::Typing::typed_is))]
    pub fn typed(text: &[u8]) -> Result<Label, TextFault>
        ensures { result ≡ typed_label text.now }
    {
        let kept = without_blanks(text);
        if kept.len() > 8 {
            return Err(TextFault::NoLabel);
        }
        let mut bytes = [b' '; 8];
        bytes[..kept.len()].copy_from_slice(kept);
        bytes.make_ascii_uppercase();
        Label::read(&bytes).ok_or(TextFault::NoLabel)
    }

    // Whether two labels are the same. The derived `==` is proved field by field; this contract speaks of labels.
    pub fn same(self, other: Label) -> bool
        ensures { Decides result (self ≡ other) }
    {
        self == other
    }

    // The order byte by byte. The derived `cmp` is proved field by field; this contract speaks of bytes, and of the numbers that
    // `key` gives: they are ordered as labels are, and tell all labels apart.
    #[tactic(auto, using(crate::proofs::Ordering::order_bytes, crate::proofs::Keys::keys_follow))]
    pub fn order(self, other: Label) -> Ordering
        ensures value { result ≡ bytes_order (bytes_of self) (bytes_of other) }
        ensures follows { KeysFollow }
    {
        self.cmp(&other)
    }

    // The number of its eight bytes, high byte first.
    pub fn key(self) -> u64
        ensures value { result ≡ key_of self }
    {
        u64::from_be_bytes(self.bytes())
    }
}
