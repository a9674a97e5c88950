// Three new books, all of one kind. One generic function could say only that each is its type's default; these two say
// that each is empty.
ghost use Rattle.std.specs.Prelude.{◌≡◌};
ghost use Rattle.quantities.specs.Units.{each, every};
ghost use Rattle.book.specs.Allowance.{empty};
ghost use Rattle.table_book.specs.Meaning.{meaning as table_meaning};
ghost use Rattle.small_book.specs.Meaning.{meaning as small_meaning};

use quantities::unit::PerUnit;
use small_book::small::Small;
use table_book::table::Table;

// With room for 31 old lots each.
pub fn table_books() -> PerUnit<Table>
    ensures { each (λ k b. table_meaning b) result ≡ every empty }
{
    PerUnit::<Table>::default()
}

// With room for one old lot each.
pub fn small_books() -> PerUnit<Small>
    ensures { each (λ k b. small_meaning b) result ≡ every empty }
{
    PerUnit::<Small>::default()
}
