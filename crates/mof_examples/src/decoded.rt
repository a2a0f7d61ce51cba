//! Laws of the encodings.
ghost use Rattle.std.specs.Prelude.{◌≡◌, ◌⊎◌, ℕ, List};
ghost use Rattle.mof_syntax.specs.Encodings.{Chars, IsTextFault};

pub fn bytes_are_characters_in_one_way()
    ensures { (bytes one other : List ℕ) → Chars bytes one → Chars bytes other → one ≡ other }
{}

pub fn bytes_that_are_characters_have_no_fault()
    ensures { (bytes text : List ℕ) (at : ℕ) → Chars bytes text → IsTextFault bytes at → ⊥ }
{}

pub fn bytes_have_at_most_one_fault()
    ensures { (bytes : List ℕ) (one other : ℕ)
        → IsTextFault bytes one → IsTextFault bytes other → one ≡ other }
{}

pub fn bytes_are_characters_or_go_wrong()
    ensures { (bytes : List ℕ)
        → ((text : List ℕ) × Chars bytes text) ⊎ ((at : ℕ) × IsTextFault bytes at) }
{}
