// The store of `seq` is of the kind that was asked for: the Book that it leaves tells which.
use crate::structures::KINDS;
use leftist_heap::StoreKind;
use queue_texts::run_seq;
use std::alloc::Global;

// Of which kind the store is that `seq` leaves which was asked for one of this kind.
fn left_by_seq(alloc: Global, kind: StoreKind) -> Option<StoreKind> {
    let mut reader: &[u8] = b"push 5\n";
    match run_seq::<u32, _, _, _>(alloc, &mut reader, &mut Vec::new(alloc), 8, kind) {
        Ok(book) => Some(book.into_parts().0.kind()),
        Err(_) => None,
    }
}

#[test]
fn seq_leaves_a_store_of_the_kind_that_was_asked_for(rt: HostRuntime) {
    for &kind in &KINDS {
        assert!(rt; left_by_seq(rt.alloc(), kind) == Some(kind), "{kind:?}");
    }
}
