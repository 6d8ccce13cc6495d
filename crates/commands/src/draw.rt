//! What a world's audit tells is drawn.

ghost use Rattle.std.specs.Prelude.{◌≡◌, IfOk, string_bytes};
ghost use Rattle.commands.specs.Commands.{WritesText};
ghost use Rattle.commands.specs.Drawing.{page_of};
ghost use Rattle.commands.specs.Failures.{stream};

use crate::check::pass_on;
use picture::{Span, write_page};
use script::{ScriptFault, Sink};
use std::alloc::{AllocError, Global};
use world::World;

// The page of what a world's audit tells, of which these entries are asked for.
fn page_of(alloc: Global, world: &World, span: Span) -> Result<String, AllocError>
    ensures { IfOk result (λ page. string_bytes page ≡ page_of world.now span) }
{
    let mut page = String::new(alloc);
    let core = world.core();
    write_page(alloc, &mut page, core.start(), core.audit(), span)?;
    Ok(page)
}

/// Writes on `out` the page of what a world's audit tells, of which these entries are asked for (`write_page` in `picture`).
pub fn draw_audit<O: Sink>(
    alloc: Global,
    world: &World,
    span: Span,
    out: &mut O,
) -> Result<(), ScriptFault>
    ensures { WritesText (page_of world.now span) result (stream (O.contents out.old) (O.failed out.old)) (stream (O.contents out.new) (O.failed out.new)) }
{
    match page_of(alloc, world, span) {
        Ok(page) => pass_on(page.as_str(), out),
        Err(_) => Err(ScriptFault::OutOfMemory),
    }
}
