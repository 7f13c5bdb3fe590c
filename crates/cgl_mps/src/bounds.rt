//! What a bound says of its column.

ghost use Rattle.std.specs.Prelude.{◌≡◌, pos};
ghost use Rattle.cgl_num.specs.NumberText.{whole};
ghost use Rattle.cgl_decode.specs.Models.{is_below_zero, is_upper, lower_by, makes_integer, upper_by, value_in};

use crate::bound::Bound;
use crate::numbers::limit_of;
use cgl_decode::BoundKind;
use cgl_num::{Dec, Limit};

#[tactic(auto, unfolding(cgl_num::specs::Decimal::decimal_of))]
pub(crate) fn zero() -> Dec
    ensures { result ≡ whole (pos 0) }
{
    match Dec::whole(0) {
        Some(zero) => zero,
        None => unreachable!(),
    }
}

#[tactic(auto, unfolding(cgl_num::specs::Decimal::decimal_of))]
fn one() -> Dec
    ensures { result ≡ whole (pos 1) }
{
    match Dec::whole(1) {
        Some(one) => one,
        None => unreachable!(),
    }
}

/// What a bound makes the lower one, if it sets it.
pub(crate) fn lower_by(kind: BoundKind, value: Option<Dec>) -> Option<Option<Dec>>
    ensures { result ≡ lower_by kind value }
{
    match kind {
        BoundKind::Lo | BoundKind::Li | BoundKind::Fx => Some(value),
        BoundKind::Fr | BoundKind::Mi => Some(None),
        BoundKind::Bv => Some(Some(zero())),
        BoundKind::Up | BoundKind::Ui | BoundKind::Pl => None,
    }
}

/// What a bound makes the upper one, if it sets it.
pub(crate) fn upper_by(kind: BoundKind, value: Option<Dec>) -> Option<Option<Dec>>
    ensures { result ≡ upper_by kind value }
{
    match kind {
        BoundKind::Up | BoundKind::Ui | BoundKind::Fx => Some(value),
        BoundKind::Fr | BoundKind::Pl => Some(None),
        BoundKind::Bv => Some(Some(one())),
        BoundKind::Lo | BoundKind::Li | BoundKind::Mi => None,
    }
}

/// The bound's value, where it is finite.
pub(crate) fn value_in(b: &Bound) -> Option<Dec>
    ensures { result ≡ value_in b.now }
{
    match limit_of(b.value)? {
        Limit::Finite(d) => Some(d),
        Limit::Plus | Limit::Minus => None,
    }
}

pub(crate) fn is_upper(kind: BoundKind) -> bool
    ensures { result ≡ is_upper kind }
{
    match kind {
        BoundKind::Up | BoundKind::Ui => true,
        _ => false,
    }
}

pub(crate) fn is_below_zero(value: Option<Dec>) -> bool
    ensures { result ≡ is_below_zero value }
{
    match value {
        Some(d) => d.m() < 0,
        None => false,
    }
}

pub(crate) fn is_integer(kind: BoundKind) -> bool
    ensures { result ≡ makes_integer kind }
{
    match kind {
        BoundKind::Li | BoundKind::Ui | BoundKind::Bv => true,
        _ => false,
    }
}
