//! Names that may be declared (C99 6.2.3, 6.7 p3, 7.1.3).

ghost use Rattle.std.specs.Prelude.{◌≡◌, IfErr};
ghost use Rattle.c_model.specs.DeclarationTyping.{is_declared_in_file, own_name};
ghost use Rattle.c_scopes.specs.Answers.{Answers, IsRefusal};
ghost use Rattle.c_scopes.specs.Sights.{plain_sight};
ghost use Rattle.c_declaration_rules.specs.Objects.{both_after};

use c_scopes::fault::{TypeFault, both, no_name};
use c_scopes::library::is_library_name;
use c_scopes::sight::{Sight, declared_here, name_at};
use c_syntax::Place;

/// Whether file scope declares a name: as an object or an enumerator, as a function, or as a type.
pub fn is_declared_in_file(sight: &Sight, name: u32) -> bool
    ensures { result ≡ is_declared_in_file (plain_sight sight.now) name }
{
    declared_here(sight, name).is_some()
        || sight.functions.called(name).is_some()
        || sight.types.named(name).is_some()
}

/// A name that may be declared: none of the library's, and none that its scope has.
pub fn own_name(sight: &Sight, declared: bool, place: Place, name: u32) -> Result<(), TypeFault>
    ensures checked { Answers (λ u. u) (own_name (plain_sight sight.now) declared place name) result }
    ensures sure { IfErr result IsRefusal }
{
    if is_library_name(name_at(&sight.names, name)) || declared {
        Err(no_name(place))
    } else {
        Ok(())
    }
}

/// An answer, and before it that of another part, which tells no more than its fault, as one.
pub fn behind<T: Drop>(a: Result<(), TypeFault>, b: Result<T, TypeFault>) -> Result<T, TypeFault>
    ensures { result ≡ both_after a b }
{
    match b {
        Ok(x) => {
            a?;
            Ok(x)
        }
        Err(g) => match both(a, Err(g)) {
            Ok(()) => Err(g),
            Err(f) => Err(f),
        },
    }
}
