// A system that keeps values on another thread.
use field::{F7, F101, Field};
use systems::Valued;

fn send<T: Send>() {}

fn sync<T: Sync>() {}

// Whatever the field, a system may be handed to another thread, and shared.
fn crosses<'a, F: Field>() {
    send::<Valued<'a, F>>();
    sync::<Valued<'a, F>>();
}

#[test]
fn a_system_crosses_threads(rt: HostRuntime) {
    crosses::<F7>();
    crosses::<F101>();
    assert_eq!(rt; F7::characteristic(), 7);
}
