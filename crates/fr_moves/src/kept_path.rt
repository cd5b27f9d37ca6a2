//! The path of the place at which the builder works, kept beside its open places.
ghost use Rattle.fr_moves.specs.Common.{IfOk, List, []};
ghost use Rattle.std.specs.Prelude.{◌∷◌, ◌++◌, ◌≡◌};
ghost use Rattle.fr_path.specs.declared.path_steps.PathStep.{PathStep as Step};

use fr_path::{Path, PathStep, law_pop_undoes_push};
use fr_shape::{OutOfMemory, Text};
use std::alloc::Global;

/// Takes the last step back.
pub fn step_back(path: &mut Path)
    ensures { (before : List Step) (last : Step)
        → path.old ≡ before ++ last ∷ [] → path.new ≡ before }
{
    law_pop_undoes_push();
    path.pop();
}

fn copy_step(alloc: Global, step: &PathStep) -> Result<PathStep, OutOfMemory>
    ensures { IfOk result (λ copy. copy ≡ step.now) }
{
    match step {
        PathStep::Field(i) => Ok(PathStep::Field(*i)),
        PathStep::Index(i) => Ok(PathStep::Index(*i)),
        PathStep::Deref => Ok(PathStep::Deref),
        PathStep::Inner => Ok(PathStep::Inner),
        PathStep::OptionSome => Ok(PathStep::OptionSome),
        PathStep::Proxy => Ok(PathStep::Proxy),
        PathStep::MapKey(i) => Ok(PathStep::MapKey(*i)),
        PathStep::MapValue(i) => Ok(PathStep::MapValue(*i)),
        PathStep::ResultOk => Ok(PathStep::ResultOk),
        PathStep::ResultErr => Ok(PathStep::ResultErr),
        PathStep::SetItem => Ok(PathStep::SetItem),
        PathStep::Entry(key) => Ok(PathStep::Entry(Text::new(alloc, key.as_str())?)),
    }
}

/// A copy of a path, step by step.
pub fn copy_path(alloc: Global, path: &Path) -> Result<Path, OutOfMemory>
    ensures copy { IfOk result (λ copy. copy ≡ path.now) }
{
    let mut copy = Path::new(alloc);
    for step in path.steps() {
        copy.push(copy_step(alloc, step)?)?;
    }
    Ok(copy)
}
