//! What an ordinary name stands for that has a value: an object, or an enumerator (C99 6.2.3).

ghost use Rattle.std.specs.Prelude.{◌≡◌, option_map};
ghost use Rattle.c_scopes.specs.Entity.{plain_entity, plain_object};
ghost use Rattle.c_scopes.specs.Newest.{plain_name};
ghost use Rattle.c_scopes.specs.Objects.{object_in, decl_in};

use c_syntax::CType;

/// The number of what annotations call `\result`, which is no declaration's.
pub const RESULT: u32 = 4_294_967_294;

/// An object, by its name and the number of its declaration.
#[derive(Drop)]
pub struct Object {
    pub name: u32,
    pub decl: u32,
    pub ctype: CType,
}

/// An enumerator, which stands for its value.
#[derive(Clone, Copy, Drop)]
pub struct Enumerator {
    pub name: u32,
    pub value: i32,
}

/// An ordinary name that stands for a value.
#[derive(Drop)]
pub enum Entity {
    AnObject(Object),
    AnEnumerator(Enumerator),
}

/// The name.
pub fn name_of(entity: &Entity) -> u32
    ensures { result ≡ plain_name (plain_entity entity.now) }
{
    match entity {
        Entity::AnObject(object) => object.name,
        Entity::AnEnumerator(enumerator) => enumerator.name,
    }
}

/// The object, if it is one.
pub fn object_in(entity: &Entity) -> Option<&Object>
    ensures { option_map (λ b. plain_object b.now) result ≡ object_in (plain_entity entity.now) }
{
    match entity {
        Entity::AnObject(object) => Some(object),
        Entity::AnEnumerator(_) => None,
    }
}

/// The number of the declaration, if it is an object.
pub fn decl_of(entity: &Entity) -> Option<u32>
    ensures { result ≡ decl_in (plain_entity entity.now) }
{
    match entity {
        Entity::AnObject(object) => Some(object.decl),
        Entity::AnEnumerator(_) => None,
    }
}
