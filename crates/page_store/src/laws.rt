ghost use Rattle.page_store.specs.Laws.{PutHoldsThePage, FetchAfterPutGivesThePage, EmptiedHoldsNothing, OtherSlotsStay, SizesStay, RefusalsChangeNothing};

// What the promises of every store come to. It does nothing; its contract is the theorem.
pub fn stores_keep_their_pages()
    ensures put_holds_the_page { PutHoldsThePage }
    ensures fetch_after_put_gives_the_page { FetchAfterPutGivesThePage }
    ensures emptied_holds_nothing { EmptiedHoldsNothing }
    ensures other_slots_stay { OtherSlotsStay }
    ensures sizes_stay { SizesStay }
    ensures refusals_change_nothing { RefusalsChangeNothing }
{}
