//! Laws of what is listed, for what stands on it.

ghost use Rattle.cgl_pool.specs.Laws.{ListsCuts, ListsTask, ListsWideKeys};

/// What is listed of any answers whose keys differ.
pub fn listing_laws()
    ensures cuts { ListsCuts }
    ensures wides { ListsWideKeys }
{}

/// What is listed of the answers of a task.
pub fn task_laws()
    ensures { ListsTask }
{}
