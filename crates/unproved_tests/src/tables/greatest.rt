// The desk of the most places and the most lines.
use announce_board::Desk;

#[test]
fn the_greatest_desk_is_opened(rt: HostRuntime) {
    assert!(rt; Desk::new(rt.alloc(), u16::MAX, 1_048_576).is_ok());
}
