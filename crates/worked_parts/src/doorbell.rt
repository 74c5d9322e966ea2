//! The worked session of a doorbell.

use gh_doorbell::Bell;

fn bell_is_rung_and_reset() -> bool {
    let mut bell = Bell::default();
    let made = bell.words();
    let sent = bell.send(5);
    bell.set_mask(1, 0);
    let received = bell.receive(4);
    let used = bell.words();
    bell.reset();
    made == (0, u64::MAX, 0)
        && (sent, received) == (0, 5)
        && used == (1, 1, 0)
        && bell.words() == made
}

#[test]
fn flags_are_set_cleared_and_reset(rt: HostRuntime) {
    assert!(rt; bell_is_rung_and_reset());
}
