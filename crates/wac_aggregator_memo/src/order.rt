//! In which order entries can be made anew: each after those that it names.

ghost use Rattle.std.specs.Prelude.{◌≡◌, ◌++◌, map, IfOk, OnOk};
ghost use Rattle.wac_aggregator_memo.specs.EntryOrder.{ArePartsFirst, IsDone, task_key, backwards};
ghost use Rattle.wac_component.specs.Key.{Stands, AllStand};
ghost use Rattle.wac_aggregator_memo.specs.Memo.{memo_of};
ghost use Rattle.wac_component.specs.Naming.{key_of};
ghost use Rattle.wac_aggregator_memo.specs.declared.order.Task.TheVariants.{Enter};

use super::memo::Memo;
use indexmap::IndexSet;
use std::alloc::AllocError;
use wac_component::{EntryId, Types};

// What is to be done: go on to what an entry names, or list the entry.
#[derive(Clone, Copy)]
enum Task {
    Enter(EntryId),
    List(EntryId),
}

// Puts tasks to enter these entries last, so that the first comes next.
fn push_ids(tasks: &mut Vec<Task>, ids: &[EntryId]) -> Result<(), AllocError>
    ensures { OnOk result (tasks.new.items ≡ tasks.old.items ++ map Enter (backwards ids.now)) }
{
    for i in 0..ids.len() {
        tasks.push(Task::Enter(ids[ids.len() - 1 - i]))?;
    }
    Ok(())
}

// Does a task, which was the last.
fn do_task(
    types: &Types,
    memo: &Memo,
    order: &mut IndexSet<EntryId>,
    tasks: &mut Vec<Task>,
    task: Task,
) -> Result<(), AllocError>
    requires { Stands types.now (task_key task) }
    ensures { OnOk result (IsDone types.now (memo_of memo.now) task (map key_of order.old.keys) tasks.old.items (map key_of order.new.keys) tasks.new.items) }
{
    types.sound();
    match task {
        Task::List(id) => {
            order.insert(id)?;
        }
        Task::Enter(id) => {
            if !memo.has(&id) && !order.contains(&id) {
                let named = types.ids_in(memo.alloc(), id)?;
                tasks.push(Task::List(id))?;
                push_ids(tasks, &named)?;
            }
        }
    }
    Ok(())
}

/// The entries to which these ids lead, each after what it names; the walk goes on from none that
/// is in the memo, and takes no stack.
pub fn parts_first(
    types: &Types,
    memo: &Memo,
    ids: &[EntryId],
) -> Result<IndexSet<EntryId>, AllocError>
    requires { AllStand types.now (map key_of ids.now) }
    ensures { IfOk result (λ order. ArePartsFirst types.now (memo_of memo.now) (map key_of ids.now) (map key_of order.keys)) }
{
    types.sound();
    let mut order = IndexSet::new(memo.alloc());
    let mut tasks = Vec::new(memo.alloc());
    push_ids(&mut tasks, ids)?;
    while let Some(task) = tasks.pop() {
        do_task(types, memo, &mut order, &mut tasks, task)?;
    }
    Ok(order)
}
