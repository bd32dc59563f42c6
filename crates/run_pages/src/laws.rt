//! The laws of what stands in a page. The function does nothing: its contract is the laws.
ghost use Rattle.std.specs.Prelude.{◌≡◌, All, true};
ghost use Rattle.std.specs.List.{list_all};
ghost use Rattle.run_pages.specs.Marks.{fixed_texts, stays_here, IsSafe};
ghost use Rattle.run_pages.specs.Page.{page_pieces};
ghost use Rattle.run_pages.specs.Shown.{Shown};

/// A page has no mark of HTML but in its picture, in its report and in the texts that are the same
/// in all pages, and these lead nowhere else.
pub fn laws_of_pieces()
    ensures marks { (shown : Shown) → All (IsSafe shown) (page_pieces shown) }
    ensures links { list_all stays_here fixed_texts ≡ true }
{}
