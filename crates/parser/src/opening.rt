//! What it means to open a production.

ghost use Rattle.std.specs.Prelude.{◌<◌, ◌≡◌, ◌&&◌, ◌==◌};
ghost use Rattle.parser.specs.Grammar.{rule_count, inside, left, opening, too_deep};

use crate::symbol::{Opening, Room};
use crate::table::{is_expression, is_statement};

/// The room inside a production that is opened with this room.
pub(crate) fn inside(r: usize, room: Room) -> Room
    requires { r < rule_count }
    ensures { result ≡ inside r room }
{
    Room {
        statements: left(is_statement(r), room.statements),
        expressions: left(is_expression(r), room.expressions),
    }
}

fn left(takes: bool, room: u8) -> u8
    ensures { result ≡ left takes room }
{
    if takes { room.saturating_sub(1) } else { room }
}

/// The production as it is opened before the token with this number.
pub(crate) fn opening(r: usize, at: u32, room: Room) -> Opening
    requires { r < rule_count }
    ensures { result ≡ opening r at room }
{
    Opening {
        production: r as u16,
        first: at,
        deep: too_deep(r, room),
    }
}

fn too_deep(r: usize, room: Room) -> bool
    requires { r < rule_count }
    ensures { result ≡ too_deep r room }
{
    if none_left(is_statement(r), room.statements) {
        true
    } else {
        none_left(is_expression(r), room.expressions)
    }
}

fn none_left(takes: bool, room: u8) -> bool
    ensures { result ≡ takes && room == 0 }
{
    takes && room == 0
}
