//! Copies of globals, which code keeps.

ghost use Rattle.std.specs.Prelude.{◌≡◌, IfOk, map};
ghost use Rattle.mon_syntax.specs.Trees.{plain_content, plain_global};

use c_syntax::copy::copy_name;
use mon_syntax::{GlobalContent, MonGlobal};
use std::alloc::{AllocError, Global};

fn copy_content(alloc: Global, content: &GlobalContent) -> Result<GlobalContent, AllocError>
    ensures { IfOk result (λ copy. plain_content copy ≡ plain_content content.now) }
{
    match content {
        GlobalContent::Zeros(n) => Ok(GlobalContent::Zeros(*n)),
        GlobalContent::Literal(bytes) => Ok(GlobalContent::Literal(copy_name(alloc, bytes)?)),
    }
}

fn copy_global(alloc: Global, global: &MonGlobal) -> Result<MonGlobal, AllocError>
    ensures { IfOk result (λ copy. plain_global copy ≡ plain_global global.now) }
{
    Ok(MonGlobal {
        name: copy_name(alloc, &global.name)?,
        content: copy_content(alloc, &global.content)?,
    })
}

/// Copies of globals, in order.
pub fn copy_globals(alloc: Global, globals: &[MonGlobal]) -> Result<Vec<MonGlobal>, AllocError>
    ensures { IfOk result (λ copies. map plain_global copies.items ≡ map plain_global globals.now) }
{
    let mut copies = Vec::new(alloc);
    for global in globals {
        copies.push(copy_global(alloc, global)?)?;
    }
    Ok(copies)
}
