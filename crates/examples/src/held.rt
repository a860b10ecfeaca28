// What is held of one code alone.
ghost use Rattle.std.specs.Prelude.{◌≡◌, replicate};
ghost use Rattle.inventory.specs.Meaning.{with_codes};

use inventory::Inventory;

// An inventory with some items of one code.
pub fn several<I: Inventory>(code: u16, times: u16) -> I
    ensures { I.Inventory.value result ≡ with_codes I.Inventory.meaning I.Inventory.meaning.neutral (replicate times code) }
{
    let mut held = I::empty();
    for _ in 0..times {
        held.add(code);
    }
    held
}
