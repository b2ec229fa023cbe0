ghost use Rattle.std.specs.Prelude.{◌≡◌, Ok};
ghost use Rattle.index_tree.specs.declared.index.Index.{Index};
ghost use Rattle.index_tree.specs.IndexRules.{IsIndex};
ghost use Rattle.index_tree.specs.IndexText.{index_text, index_of};

/// Each index that keeps the rules has one spelling, which is read as this index; and what is read as an index is its
/// spelling, and keeps the rules. This does nothing: it states a law.
pub fn one_spelling(bytes: &[u8])
    ensures read { (i : Index) → IsIndex i → index_of (index_text i) ≡ Ok i }
    ensures spelled { (i : Index) → index_of bytes.now ≡ Ok i → bytes.now ≡ index_text i }
    ensures is_index { (i : Index) → index_of bytes.now ≡ Ok i → IsIndex i }
{
    let _ = bytes;
}
