ghost use Rattle.std.specs.Prelude.{IfSome};
ghost use Rattle.turn_cell.specs.Passes.{IsReady};

use crate::diary::{Begun, Diary, append};
use crate::{CellPass, TurnCell, made_by_law};
use std::alloc::Global;
use std::sync::Wait;
use std::test::*;
use std::thread;
use std::thread::{Threads, join};

// A cell with three passes, in a type that names them through a lifetime and a type parameter.
#[derive(Drop)]
struct Table<'a, T> {
    cell: TurnCell<Diary<'a, T>>,
    first: CellPass<Diary<'a, T>>,
    second: CellPass<Diary<'a, T>>,
    third: CellPass<Diary<'a, T>>,
}

fn opened<'a, T>(alloc: Global, text: &'a T) -> Option<Table<'a, T>>
    ensures { IfSome result (λ t. IsReady t.cell t.first 0 × IsReady t.cell t.second 1 × IsReady t.cell t.third 2) }
{
    let diary = Diary::new(alloc, text);
    let Ok((cell, mut passes)) = TurnCell::open(alloc, diary, 3) else {
        return None;
    };
    made_by_law::<Begun<'a, T>, ()>();
    let third = passes.pop()?;
    let second = passes.pop()?;
    let first = passes.pop()?;
    Some(Table {
        cell,
        first,
        second,
        third,
    })
}

// A pass of this number, on its way to another thread.
#[derive(Drop)]
struct Worker<'w, 'a, T> {
    cell: &'w TurnCell<Diary<'a, T>>,
    pass: CellPass<Diary<'a, T>>,
    number: u32,
}

// Appends until the pass has made a thousand entries of its own. False where memory runs out.
fn extend<'w, 'a, T, R: Wait>(rt: &R, worker: Worker<'w, 'a, T>) -> bool
    requires { IsReady worker.cell.now worker.pass worker.number }
{
    let Worker {
        cell,
        mut pass,
        number,
    } = worker;
    let mut made = 0;
    for _ in rt.forever() {
        if made >= 1000 {
            break;
        }
        match append(cell, &mut pass, number) {
            Ok(true) => made += 1,
            Ok(false) => thread::yield_now(),
            Err(_) => return false,
        }
    }
    true
}

// How many entries there are besides the opening after two threads have extended one cell, and how many of the pass 1.
fn counted<'a, T: Sync, R: Threads + Wait + Sync>(
    rt: &R,
    alloc: Global,
    text: &'a T,
) -> Option<(usize, usize)> {
    let Table {
        cell,
        first,
        second,
        mut third,
    } = opened(alloc, text)?;
    let one = Worker {
        cell: &cell,
        pass: first,
        number: 0,
    };
    let two = Worker {
        cell: &cell,
        pass: second,
        number: 1,
    };
    let (one, two) = join(rt, || extend(rt, one), || extend(rt, two));
    if !(one && two) {
        return None;
    }
    let last = cell.take(&mut third)?;
    let ones = last.numbers.iter().filter(|n| **n == 1).count();
    Some((last.numbers.len(), ones))
}

#[test]
fn another_pass_gets_nothing_while_one_has_the_state(rt: HostRuntime) -> Result<(), Fail> {
    let text = 7u64;
    let Table {
        cell,
        mut first,
        mut second,
        third: _,
    } = opened(rt.alloc(), &text).ok_or("no memory")?;
    let Table {
        cell: other,
        first: _,
        second: mut another,
        third: _,
    } = opened(rt.alloc(), &text).ok_or("no memory")?;
    first.knows();
    let diary = cell.take(&mut first).ok_or("the turn was free")?;
    assert!(rt; cell.take(&mut second).is_none());
    assert!(rt; other.take(&mut another).is_some());
    cell.put(&mut first, diary);
    assert!(rt; cell.take(&mut second).is_some());
    Ok(())
}

#[test]
fn two_threads_make_two_thousand_entries(rt: HostRuntime) -> Result<(), Fail> {
    let text = 7u64;
    assert!(rt; counted(&rt, rt.alloc(), &text) == Some((2000, 1000)));
    Ok(())
}
