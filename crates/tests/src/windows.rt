// A window with ample memory.
use sp_base::{NoMemory, or_drop};
use sp_window::Window;
use std::alloc::Global;

/// Two bytes and the bounds of a window that is trimmed, and a view of it: its length, its first byte, and whether the rest is right.
fn told(alloc: Global) -> Result<((u8, u64, u64, u8), (u64, u8, bool, u64)), NoMemory> {
    let mut window = Window::new(alloc);
    or_drop!(window.push(b"abcdef"); window);
    window.trim(2);
    let third = window.byte_at(2);
    or_drop!(window.push(b"gh"); window);
    window.trim(5);
    let base = window.base();
    let end = window.end();
    let eighth = window.byte_at(7);
    let view = window.view(5, 8);
    let length = view.len();
    let first = view.at(0);
    let rest_is_right = view.part(1) == b"gh".as_slice();
    window.trim(8);
    let last = window.end();
    drop(window);
    Ok((
        (third, base, end, eighth),
        (length, first, rest_is_right, last),
    ))
}

#[test]
fn bytes_keep_their_places(rt: HostRuntime) -> Result<(), NoMemory> {
    let told = told(rt.alloc())?;
    assert!(rt; told == ((b'c', 5, 8, b'h'), (3, b'f', true, 8)));
    Ok(())
}
