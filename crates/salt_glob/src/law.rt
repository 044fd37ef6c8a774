//! What the relation of globs means.
ghost use Rattle.salt_glob.specs.Fronts.{IsByFront};

/// Whether a pattern holds is told by what stands at its front: nothing, a `*`, a `?`, a class, or another byte.
pub fn globs_go_by_the_front()
    ensures { IsByFront }
{}
