//! Members of structs (C99 6.7.2.1).

ghost use Rattle.std.specs.Prelude.{◌≡◌, ◌<◌, IfOk, None, OnOk, false, length, map, nat_eq, slice_set};
ghost use Rattle.c_syntax.specs.Ctypes.{plain_type};
ghost use Rattle.c_syntax.specs.Programs.{plain_layout, plain_member};
ghost use Rattle.c_model.specs.DeclarationTyping.{typed_member_type};
ghost use Rattle.c_model.specs.ExpressionTyping.{HasSize, sized};
ghost use Rattle.c_scopes.specs.Answers.{Answers};
ghost use Rattle.c_scopes.specs.Sights.{plain_sight};
ghost use Rattle.indexmap.specs.IndexMap.{get};
ghost use Rattle.indexmap.specs.IndexSet.{contains};
ghost use Rattle.c_declaration_rules.specs.declared.open_struct.OpenStructs.{OpenStructs};
ghost use Rattle.c_declaration_rules.specs.Members.{GrownTo, GrowsTo, checked_member, ended, member_typed};
ghost use Rattle.c_declaration_rules.specs.Members.{name_besides, object_member, small_layout, with_last_member};
ghost use Rattle.c_declaration_rules.specs.OpenStructs.{HasNames, IsLaid, IsOpen, IsOpenAt};

use crate::layout::{Grown, greater, grow, levels_of, more};
use crate::name::behind;
use crate::open_struct::{OpenStructs, keep, names_at};
use c_expression_rules::expression::type_elements;
use c_expression_rules::types::limited;
use c_scopes::fault::{TypeFault, no_name, too_large};
use c_scopes::limits::MOST_BYTES;
use c_scopes::sight::{Sight, number_at};
use c_syntax::copy::copy_type;
use c_syntax::{CType, Layout, Member, Place};
use indexmap::IndexSet;
use std::alloc::{AllocError, Global};
use std::mem::replace;

/// A name that is none of these.
fn new_member(name: u32, place: Place, names: &IndexSet<u32>) -> Result<(), TypeFault>
    ensures { Answers (λ u. u) (name_besides (contains nat_eq names.now name) place) result }
{
    if names.contains(&name) {
        Err(no_name(place))
    } else {
        Ok(())
    }
}

/// Types the type of a member, which is an object's and passes no limit.
fn type_object_member(
    alloc: Global,
    sight: &Sight,
    place: Place,
    t: &mut CType,
) -> Result<(), TypeFault>
    ensures typed { Answers (λ _. plain_type t.new) (object_member (plain_sight sight.now) place (plain_type t.old)) result }
    ensures sized { OnOk result (sized (plain_sight sight.now).structs (plain_type t.new) ≡ HasSize) }
{
    let object = type_elements(alloc, sight, place, t);
    limited(sight, place, t, object)
}

/// A layout whose size passes no limit.
fn small_layout(place: Place, grown: Grown) -> Result<Grown, TypeFault>
    ensures checked { Answers (λ g. g) (small_layout place grown) result }
    ensures same { IfOk result (λ g. g ≡ grown) }
    ensures small { IfOk result (λ g. g.size < 4294967296) }
{
    if grown.size <= u64::from(MOST_BYTES) {
        Ok(grown)
    } else {
        Err(too_large(place))
    }
}

/// Types the type of a member behind the others of its struct. Gives the layout with it, which has few enough bytes.
fn type_member_type(
    alloc: Global,
    sight: &Sight,
    layout: &Layout,
    m: &mut Member,
) -> Result<Grown, TypeFault>
    requires { IsLaid (plain_sight sight.now).structs (plain_layout layout.now) }
    ensures typed { Answers (λ _. plain_type m.new.ctype) (typed_member_type (plain_sight sight.now) (plain_layout layout.now) (plain_member m.old)) result }
    ensures grows { IfOk result (λ g. GrowsTo (plain_sight sight.now) (plain_layout layout.now) (plain_type m.new.ctype) g) }
    ensures small { IfOk result (λ g. g.size < 4294967296) }
    ensures sized { OnOk result (sized (plain_sight sight.now).structs (plain_type m.new.ctype) ≡ HasSize) }
    ensures kept { plain_member m.new ≡ record (plain_member m.old) { ctype = plain_type m.new.ctype } }
{
    type_object_member(alloc, sight, m.place, &mut m.ctype)?;
    let grown = grow(&sight.structs, layout, &m.ctype)?;
    small_layout(m.place, grown)
}

/// Types a member of a struct, whose name is new in it.
fn type_new_member(
    alloc: Global,
    sight: &Sight,
    layout: &Layout,
    names: &IndexSet<u32>,
    m: &mut Member,
) -> Result<Grown, TypeFault>
    requires laid { IsLaid (plain_sight sight.now).structs (plain_layout layout.now) }
    requires named { HasNames names.now (map plain_member layout.now.members.items) }
    ensures typed { Answers (λ _. plain_type m.new.ctype) (checked_member (plain_sight sight.now) (plain_layout layout.now) (plain_member m.old)) result }
    ensures grows { IfOk result (λ g. GrowsTo (plain_sight sight.now) (plain_layout layout.now) (plain_type m.new.ctype) g) }
    ensures small { IfOk result (λ g. g.size < 4294967296) }
    ensures sized { OnOk result (sized (plain_sight sight.now).structs (plain_type m.new.ctype) ≡ HasSize) }
    ensures kept { plain_member m.new ≡ record (plain_member m.old) { ctype = plain_type m.new.ctype } }
{
    let name = new_member(m.name, m.place, names);
    let ctype = type_member_type(alloc, sight, layout, m);
    behind(name, ctype)
}

/// Adds a member to its struct, which has a size where it ends with the member.
fn add(
    alloc: Global,
    layout: &mut Layout,
    m: &Member,
    grown: Grown,
    ends: bool,
) -> Result<(), AllocError>
    requires { grown.size < 4294967296 }
    ensures { OnOk result (plain_layout layout.new ≡ ended ends (with_last_member (plain_layout layout.old) (plain_member m.now) grown)) }
{
    let ctype = copy_type(alloc, &m.ctype)?;
    layout.members.push(Member {
        place: m.place,
        name: m.name,
        ctype,
        offset: grown.offset,
    })?;
    layout.align = grown.align;
    layout.size = if ends { grown.size as u32 } else { 0 };
    Ok(())
}

/// Gives the struct of an index so many levels.
fn set_level(levels: &mut Vec<u32>, k: usize, level: u32)
    ensures { levels.new.items ≡ slice_set levels.old.items k level }
{
    if k < levels.len() {
        levels[k] = level;
    }
}

/// Adds a member to the struct of an index in sight.
fn see_member(
    alloc: Global,
    sight: &mut Sight,
    k: usize,
    m: &Member,
    grown: Grown,
    ends: bool,
) -> Result<(), AllocError>
    requires within { k < length sight.old.structs.items }
    requires small { grown.size < 4294967296 }
    ensures { OnOk result (GrownTo (plain_sight sight.old) k (plain_member m.now) grown ends (plain_sight sight.new)) }
{
    let levels = more(levels_of(&sight.levels, &m.ctype)?)?;
    let level = greater(number_at(&sight.levels, k), levels);
    add(alloc, &mut sight.structs[k], m, grown, ends)?;
    set_level(&mut sight.levels, k, level);
    Ok(())
}

/// Types a member of the struct of an index, which has members of these names, and adds it to the struct in sight and its name to theirs.
fn type_next_member(
    alloc: Global,
    sight: &mut Sight,
    k: usize,
    names: &mut IndexSet<u32>,
    m: &mut Member,
    ends: bool,
) -> Result<(), TypeFault>
    requires within { k < length sight.old.structs.items }
    requires begun { IsOpenAt (plain_sight sight.old).structs k names.old }
    ensures typed { Answers (λ _. plain_sight sight.new) (member_typed (plain_sight sight.old) k (plain_member m.old) ends) result }
    ensures begun { OnOk result (ends ≡ false → IsOpenAt (plain_sight sight.new).structs k names.new) }
    ensures others { OnOk result ((begun : OpenStructs) → get nat_eq begun.names k ≡ None → IsOpen (plain_sight sight.old).structs begun
        → IsOpen (plain_sight sight.new).structs begun) }
{
    let grown = type_new_member(alloc, sight, &sight.structs[k], names, m)?;
    see_member(alloc, sight, k, m, grown, ends)?;
    names.insert(m.name)?;
    Ok(())
}

/// Types a member of a struct, where what is kept of structs that are begun is true of them, and so it is again.
fn type_begun_member(
    alloc: Global,
    sight: &mut Sight,
    begun: &mut OpenStructs,
    k: usize,
    m: &mut Member,
    ends: bool,
) -> Result<(), TypeFault>
    requires within { k < length sight.old.structs.items }
    requires begun { IsOpen (plain_sight sight.old).structs begun.old }
    ensures typed { Answers (λ _. plain_sight sight.new) (member_typed (plain_sight sight.old) k (plain_member m.old) ends) result }
    ensures begun { OnOk result (IsOpen (plain_sight sight.new).structs begun.new) }
{
    let mut names = names_at(alloc, &sight.structs, begun, k)?;
    type_next_member(alloc, sight, k, &mut names, m, ends)?;
    if !ends {
        begun.names.insert(k, names)?;
    }
    Ok(())
}

/// Types a member of the struct of an index, and adds it to the struct in sight. The struct ends with its last member, and has a size
/// from then on. What is kept of the members before it is that of each struct that was begun, and nothing where a member is refused.
pub fn type_member(
    alloc: Global,
    sight: &mut Sight,
    begun: &mut OpenStructs,
    k: usize,
    m: &mut Member,
    ends: bool,
) -> Result<(), TypeFault>
    requires { IsOpen (plain_sight sight.old).structs begun.old }
    ensures typed { Answers (λ _. plain_sight sight.new) (member_typed (plain_sight sight.old) k (plain_member m.old) ends) result }
    ensures begun { IsOpen (plain_sight sight.new).structs begun.new }
{
    if k < sight.structs.len() {
        let mut all = replace(begun, OpenStructs::new(alloc));
        let typed = type_begun_member(alloc, sight, &mut all, k, m, ends);
        keep(begun, all, typed)
    } else {
        Ok(())
    }
}
