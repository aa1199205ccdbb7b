//! The mask: one bit for each queue, which is set where the queue has a node.

ghost use Rattle.std.specs.Prelude.{◌≡◌, ◌≢◌, ◌<◌, ◌≤◌, ◌+◌, ◌^◌};

/// The mask when so many nodes are left in a queue that had one.
pub(crate) fn without(mask: u64, bucket: u8, left: u32) -> u64
    requires bucket { bucket < 48 }
    requires bit { 2 ^ bucket ≤ mask }
    ensures emptied { left ≡ 0 → result + 2 ^ bucket ≡ mask }
    ensures same { left ≢ 0 → result ≡ mask }
{
    if left == 0 {
        return mask - (1 << bucket);
    }
    mask
}
