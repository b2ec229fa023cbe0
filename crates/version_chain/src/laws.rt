ghost use Rattle.std.specs.Prelude.{◌≡◌, Ok};
ghost use Rattle.store_model.specs.declared.chain.Entry.{Entry as Element};
ghost use Rattle.store_model.specs.declared.snapshot.SnapBody.{SnapBody as Snapshot};
ghost use Rattle.store_model.specs.ChainText.{entry_text, entry_of, snap_text, snap_of};
ghost use Rattle.version_chain.specs.Entries.{IsEntry, FitsEntry};
ghost use Rattle.version_chain.specs.SnapBodies.{IsSnap, FitsSnap};

/// Each element within the rules has one spelling, which is read as this element; and what is read as an element is its
/// spelling. This does nothing: it states a law.
pub fn elements_have_one_spelling(bytes: &[u8])
    ensures read { (e : Element) → IsEntry e → FitsEntry e → entry_of (entry_text e) ≡ Ok e }
    ensures spelled { (e : Element) → entry_of bytes.now ≡ Ok e → bytes.now ≡ entry_text e }
    ensures is_entry { (e : Element) → entry_of bytes.now ≡ Ok e → IsEntry e }
    ensures fits { (e : Element) → entry_of bytes.now ≡ Ok e → FitsEntry e }
{
    let _ = bytes;
}

/// Each snapshot within the rules has one spelling, which is read as this snapshot; and what is read as a snapshot is its
/// spelling. This does nothing: it states a law.
pub fn snapshots_have_one_spelling(bytes: &[u8])
    ensures read { (s : Snapshot) → IsSnap s → FitsSnap s → snap_of (snap_text s) ≡ Ok s }
    ensures spelled { (s : Snapshot) → snap_of bytes.now ≡ Ok s → bytes.now ≡ snap_text s }
    ensures is_snap { (s : Snapshot) → snap_of bytes.now ≡ Ok s → IsSnap s }
    ensures fits { (s : Snapshot) → snap_of bytes.now ≡ Ok s → FitsSnap s }
{
    let _ = bytes;
}
