// Entries read and compared by what a caller lends, of any type: by a value of its own, and by a closure.
ghost use Rattle.std.specs.Prelude.{◌≡◌, ◌+◌, ◌%◌, ⊤, slice_index};

use super::entry::Reading;
use super::parts::entries_agree_by;
use super::{byte, read_entries_by};
use std::marker::Model;

// Two bytes, of a type that can't be compared.
#[derive(Clone, Copy)]
struct Pair {
    first: u8,
    second: u8,
}

// Bytes, each by so many more.
struct Raised {
    by: u8,
}

impl Reading<u8> for Raised {
    ghost MayRead = { λ raised bytes at x. x ≡ (slice_index bytes at + raised.by) % 256 };

    fn read(&self, bytes: &[u8], at: usize) -> u8 {
        byte(bytes, at).wrapping_add(self.by)
    }
}

// What reads entries while a fact holds of it.
trait Asked {
    type Entry;

    ghost May: { Self → Type 0 };

    fn ask(&self, bytes: &[u8], at: usize) -> Self::Entry
        requires { May self.now };
}

// A closure reads while it may be called.
#[derive(Drop)]
struct Closure<F> {
    read: F,
}

impl<T, F: Fn(&[u8], usize) -> T> Asked for Closure<F> {
    type Entry = T;

    ghost May = { λ closure. F.IsAlwaysCallable closure.read };

    fn ask(&self, bytes: &[u8], at: usize) -> T {
        (self.read)(bytes, at)
    }
}

// The fact holds of every value of this type, so that the value reads wherever it is lent.
struct Ready<A: Asked> {
    asked: A,
}

impl<A: Asked> Model for Ready<A> {
    ghost Value = { A };

    ghost view = { λ ready. ready.asked };

    ghost invariant = { λ ready. A.May ready.asked };
}

impl<A: Asked> Reading<A::Entry> for Ready<A> {
    ghost MayRead = { λ ready bytes at x. ⊤ };

    fn read(&self, bytes: &[u8], at: usize) -> A::Entry {
        self.asked.ask(bytes, at)
    }
}

// Generic over what is asked, as `agree_asked` below: the borrow checker doesn't cover a function that makes
// and lends a `Ready` over a closure's own type.
fn read_asked<T: Copy, A: Asked<Entry = T> + Drop>(
    bytes: &[u8],
    from: usize,
    size: usize,
    asked: A,
    entries: &mut [T],
)
    requires { A.May asked }
{
    let ready = Ready { asked };
    read_entries_by(bytes, from, size, &ready, entries);
    let Ready { asked: _asked } = ready;
}

// Fills a list with the entries from a place on, as a closure reads them.
fn read_by_closure<T: Copy, F: Fn(&[u8], usize) -> T>(
    bytes: &[u8],
    from: usize,
    size: usize,
    entry: F,
    entries: &mut [T],
)
    requires { F.IsAlwaysCallable entry }
{
    read_asked(bytes, from, size, Closure { read: entry }, entries)
}

fn agree_asked<T: Copy + PartialEq, A: Asked<Entry = T> + Drop>(
    bytes: &[u8],
    from: usize,
    apart: usize,
    asked: A,
    n: usize,
    pool: &[T],
    past: T,
) -> bool
    requires { A.May asked }
{
    let ready = Ready { asked };
    let agree = entries_agree_by(bytes, from, apart, &ready, n, pool, past);
    let Ready { asked: _asked } = ready;
    agree
}

// Whether the first n entries of a pool are those from a place on, as a closure reads them, and each after
// them equals another.
fn agree_by_closure<T: Copy + PartialEq, F: Fn(&[u8], usize) -> T>(
    bytes: &[u8],
    from: usize,
    apart: usize,
    entry: F,
    n: usize,
    pool: &[T],
    past: T,
) -> bool
    requires { F.IsAlwaysCallable entry }
{
    agree_asked(bytes, from, apart, Closure { read: entry }, n, pool, past)
}

#[test]
fn a_closure_reads(rt: HostRuntime) {
    let mut pairs = [Pair {
        first: 0,
        second: 0,
    }; 3];
    let by = 100u8;
    read_by_closure(
        b"abcdefg",
        0,
        3,
        |bytes, at| Pair {
            first: byte(bytes, at),
            second: byte(bytes, at.wrapping_add(1)).wrapping_sub(by),
        },
        &mut pairs,
    );
    assert_eq!(rt; [pairs[0].first, pairs[1].first, pairs[2].first], *b"adg");
    assert_eq!(rt;
        [pairs[0].second, pairs[1].second, pairs[2].second],
        [254, 1, 156]
    );
}

#[test]
fn a_closure_compares(rt: HostRuntime) {
    let by = 1u8;
    let raised = |bytes: &[u8], at: usize| byte(bytes, at).wrapping_add(by);
    assert!(rt; agree_by_closure(b"abcdefg", 1, 2, raised, 3, b"ceg\x05\x05", 5));
    assert!(rt; !agree_by_closure(b"abcdefg", 1, 2, raised, 3, b"ceg\x05\x06", 5));
    assert!(rt; !agree_by_closure(b"abcdefg", 2, 2, raised, 3, b"ceg\x05\x05", 5));
}

#[test]
fn a_value_reads_and_compares(rt: HostRuntime) {
    let mut pool = [9u8; 4];
    read_entries_by(b"abcdefg", 1, 2, &Raised { by: 1 }, &mut pool);
    assert_eq!(rt; pool, *b"ceg\x01");
    assert!(rt; entries_agree_by(b"abcdefg", 1, 2, &Raised { by: 1 }, 3, &pool, 1));
    assert!(rt; entries_agree_by(b"abcdefg", 1, 2, &Raised { by: 1 }, 4, &pool, 2));
    assert!(rt; !entries_agree_by(b"abcdefg", 1, 2, &Raised { by: 1 }, 3, &pool, 2));
    assert!(rt; !entries_agree_by(b"abcdefg", 1, 2, &Raised { by: 2 }, 3, &pool, 1));
    assert!(rt; !entries_agree_by(b"abcdefg", 1, 3, &Raised { by: 1 }, 3, &pool, 1));
}
