ghost use Rattle.std.specs.Prelude.{◌≡◌};
ghost use Rattle.cgl_pool.specs.Does.{AreRising};
ghost use Rattle.cgl_pool.specs.Generators.{any};
ghost use Rattle.cgl_pool.specs.Task.{IsTask};

use crate::AnyGen;
use cgl_gen::Site;

/// What generators work on: a site; the generators that serve it, whose numbers rise; the order of their turns, by
/// their places from 0, used again and again; and after how many turns they stop, if not when all items are served.
#[derive(Drop)]
pub struct Task<'a> {
    site: &'a Site<'a>,
    generators: &'a [AnyGen],
    order: &'a [u32],
    stop: Option<u64>,
}

impl<'a> std::marker::Model for Task<'a> {
    ghost use Rattle.cgl_pool.specs.Task.{IsTask, Task as Work};

    ghost Value = { Work };

    ghost view = { λ it. record { setting = it.site.now; generators = it.generators.now; order = it.order.now; stop = it.stop } };

    ghost invariant = { λ it. IsTask (record { setting = it.site.now; generators = it.generators.now; order = it.order.now; stop = it.stop }) };
}

impl<'a> Task<'a> {
    /// The task of these generators, whose numbers rise.
    pub fn new(
        site: &'a Site<'a>,
        generators: &'a [AnyGen],
        order: &'a [u32],
        stop: Option<u64>,
    ) -> Task<'a>
        requires { AreRising any generators.now }
        ensures task { IsTask result }
        ensures setting { result.setting ≡ site.now }
        ensures generators { result.generators ≡ generators.now }
        ensures order { result.order ≡ order.now }
        ensures stop { result.stop ≡ stop }
    {
        let _model = site.model();
        Task {
            site,
            generators,
            order,
            stop,
        }
    }

    /// The site.
    pub fn site(&self) -> &Site<'_>
        ensures value { result.now ≡ self.now.setting }
        ensures task { IsTask self.now }
    {
        self.site
    }

    /// The generators, their numbers rising.
    pub fn generators(&self) -> &[AnyGen]
        ensures value { result.now ≡ self.now.generators }
        ensures task { IsTask self.now }
    {
        self.generators
    }
}
