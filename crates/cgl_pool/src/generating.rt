ghost use Rattle.std.specs.Prelude.{◌≡◌, ◌<◌, ◌∷◌, [], ◌++◌, None, IfOk, OnOk};
ghost use Rattle.cgl_pool.specs.Does.{counts_of, does};
ghost use Rattle.cgl_pool.specs.Served.{first_items, served_items, stamped};
ghost use Rattle.cgl_pool.specs.Task.{IsTask, answers, listed_cuts, wide_keys};

use crate::laws::task_laws;
use crate::{Gathered, Numbered, Task, gather};
use cgl_gen::{Site, Stamped};
use cgl_num::Memory;
use std::alloc::Global;

/// What a generator says of an item, under its key.
fn answer<G: Numbered>(
    alloc: Global,
    site: &Site<'_>,
    generator: &G,
    item: u64,
) -> Result<Stamped, Memory>
    requires { item < G.count generator.now site.now }
    ensures { IfOk result (λ given. given ≡ stamped (does G.number_of G.count G.says) site.now generator.now item) }
{
    let answer = generator.give(alloc, site, item)?;
    let key = (generator.number(), item);
    Ok(Stamped { key, answer })
}

fn push(answers: &mut Vec<Stamped>, stamped: Stamped) -> Result<(), Memory>
    ensures { OnOk result (answers.new.items ≡ answers.old.items ++ stamped ∷ []) }
{
    let Ok(()) = answers.push(stamped) else {
        return Err(Memory);
    };
    Ok(())
}

/// Puts what a generator says of all its items behind what was said before, the last item first.
fn serve<G: Numbered>(
    alloc: Global,
    site: &Site<'_>,
    generator: &G,
    answers: &mut Vec<Stamped>,
) -> Result<(), Memory>
    ensures { OnOk result (answers.new.items ≡ answers.old.items ++ first_items (does G.number_of G.count G.says) site.now generator.now (G.count generator.now site.now)) }
{
    let count = generator.items(alloc, site)?;
    for item in (0..count).rev() {
        let stamped = answer(alloc, site, generator, item)?;
        push(answers, stamped)?;
    }
    Ok(())
}

/// What the generators say of all their items.
fn serve_all<G: Numbered>(
    alloc: Global,
    site: &Site<'_>,
    generators: &[G],
) -> Result<Vec<Stamped>, Memory>
    ensures { IfOk result (λ answers. answers.items ≡ served_items (does G.number_of G.count G.says) site.now generators.now (counts_of (does G.number_of G.count G.says) site.now generators.now)) }
{
    let mut answers = Vec::new(alloc);
    for generator in generators {
        serve(alloc, site, generator, &mut answers)?;
    }
    Ok(answers)
}

/// The answers to all items of a task without a stop.
fn answers(alloc: Global, task: &Task<'_>) -> Result<Vec<Stamped>, Memory>
    requires { task.now.stop ≡ None }
    ensures answers { IfOk result (λ given. given.items ≡ answers task.now) }
    ensures task { IsTask task.now }
{
    serve_all(alloc, task.site(), task.generators())
}

/// What is listed of the answers to all items of a task without a stop: the cuts, each inequality once under its least
/// key, in the order of inequalities, and the rising keys of the answers that were too wide.
///
/// # Errors
///
/// `Memory` where memory is refused, and for no other cause.
pub fn generate(alloc: Global, task: &Task<'_>) -> Result<Gathered, Memory>
    requires { task.now.stop ≡ None }
    ensures listed { IfOk result (λ gathered. gathered.listed ≡ listed_cuts task.now) }
    ensures wides { IfOk result (λ gathered. gathered.wides ≡ wide_keys task.now) }
    ensures task { IsTask task.now }
{
    task_laws();
    gather(alloc, answers(alloc, task)?)
}
