// Laying bytes into a buffer.
ghost use Rattle.std.specs.Prelude.{◌≡◌};
ghost use Rattle.slot.specs.Slots.{laid};

// Writes bytes at the start, where there is room for them, and keeps what stands behind them.
pub fn lay(bytes: &[u8], out: &mut [u8])
    ensures { out.new ≡ laid bytes.now out.old }
{
    let len = bytes.len();
    if len <= out.len() {
        out[0..len].copy_from_slice(bytes);
    }
}
