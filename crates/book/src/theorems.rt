// The laws of the allowance book, owed by the contract of one function, so that they are proved.
ghost use Rattle.book.specs.Laws.{FillSum, DrawSum, LapseSum, CarrySum, ClearSum, AsideSum};
ghost use Rattle.book.specs.Laws.{LapseTwice, EndedTwice, LapseCarry, EndedAll};
ghost use Rattle.book.specs.Laws.{DrawAll, DrawFirst, DrawLast};
ghost use Rattle.book.specs.Laws.{AsideByDays, DecidedByDays, AsideBeforeCap, AsidePastCap, AsideNoLonger, AsideNothing, AsideRoom};
ghost use Rattle.book.specs.Laws.{EmptyKept, FillKept, DrawKept, LapseKept, CarryKept, AsideKept};

// No operation loses or makes units; a lapse before a later lapse, a carry or a clear changes no total; a draw takes
// first what ends first; set aside is what its rule says of each day, lengthens no lot's life, and finds room for lots
// that end within as many days as the book has room for lots; and what holds of every book is kept.
pub fn book_laws_stand()
    ensures sums { FillSum × DrawSum × LapseSum × CarrySum × ClearSum × AsideSum }
    ensures lapses { LapseTwice × EndedTwice × LapseCarry × EndedAll }
    ensures draws { DrawAll × DrawFirst × DrawLast }
    ensures days { AsideByDays × DecidedByDays × AsideBeforeCap × AsidePastCap × AsideNoLonger }
    ensures room { AsideNothing × AsideRoom }
    ensures limits { EmptyKept × FillKept × DrawKept × LapseKept × CarryKept × AsideKept }
{}
