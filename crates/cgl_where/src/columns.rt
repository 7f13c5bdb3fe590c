//! The columns of a model by their names.

ghost use Rattle.std.specs.Prelude.{◌≡◌, IfOk};
ghost use Rattle.cgl_where.specs.Carried.{column_number};

use cgl_model::Model;
use cgl_num::Memory;
use cgl_text::Names;
use std::alloc::Global;

/// A model whose columns are found by their names.
#[derive(Drop)]
pub(crate) struct Columns<'a> {
    pub(crate) model: &'a Model,
    names: Names<'a>,
}

impl<'a> std::marker::Model for Columns<'a> {
    ghost use Rattle.std.specs.Prelude.{◌≡◌};
    ghost use Rattle.cgl_model.specs.declared.mip.Model.{Model as Said};
    ghost use Rattle.cgl_where.specs.PointFile.{column_names};

    ghost Value = { Said };

    ghost view = { λ it. it.model.now };

    ghost invariant = { λ it. it.names ≡ column_names it.model.now };
}

impl<'a> Columns<'a> {
    pub(crate) fn of(alloc: Global, model: &'a Model) -> Result<Columns<'a>, Memory>
        ensures { IfOk result (λ it. it ≡ model.now) }
    {
        let mut names = Names::new(alloc);
        for column in model.cols.as_slice() {
            let Ok(()) = names.push(column.name.as_slice()) else {
                return Err(Memory);
            };
        }
        Ok(Columns { model, names })
    }

    /// The number of the first column of the name.
    pub(crate) fn find(&self, name: &[u8]) -> Option<usize>
        ensures { result ≡ column_number self.now name.now }
    {
        self.names.find(name)
    }
}
