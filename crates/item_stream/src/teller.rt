//! Who tells of items.

ghost use Rattle.std.specs.Prelude.{ℕ, List, IfOk};
ghost use Rattle.item_stream.specs.Telling.{Tells};

use bt_base::NoMemory;

/// What stands at the front of some octets, where an item should begin.
#[derive(Clone, Copy, Debug, PartialEq, Eq)]
pub enum Front {
    /// An item with so many octets.
    Item(usize),
    /// The beginning of an item, which has at least so many octets in all.
    Cut(usize),
    /// There are no octets, and none need come.
    Nothing,
    /// No item.
    Refused,
}

/// Who takes the items of an input, one after the other, and adds to a text what is to be told of each.
pub trait Teller {
    ghost use Rattle.item_stream.specs.declared.teller.Front.{Front};

    /// Since it was `first` it took items that have these octets, and told this of them.
    ghost has_told: { Self → Self → List ℕ → List ℕ → Type 0 };

    /// It finds this at the front of octets where no whole item stands.
    ghost finds: { Self → List ℕ → Front → Type 0 };

    /// Takes the item at the front of the octets, and adds to the text what is to be told of it. Where
    /// no whole item stands there nothing is added.
    fn tell(&mut self, octets: &[u8], text: &mut Vec<u8>) -> Result<Front, NoMemory>
        ensures { IfOk result (Tells has_told finds self.old self.new octets.now text.old.items text.new.items) };
}
