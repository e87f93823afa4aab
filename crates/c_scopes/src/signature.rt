//! What functions tell their callers (C99 6.7.5.3), and the functions that are in sight.

ghost use Rattle.std.specs.Prelude.{◌≡◌, [], ◌∷◌, ◌++◌, IfOk, cond, is_ok, map, option_map};
ghost use Rattle.c_syntax.specs.Ctypes.{plain_type};
ghost use Rattle.c_model.specs.ExpressionTyping.{function_called};
ghost use Rattle.c_scopes.specs.Firsts.{AreFirst};
ghost use Rattle.c_scopes.specs.Signatures.{name_of_function, plain_signature};

use crate::first::note;
use c_syntax::CType;
use c_syntax::copy::copy_type;
use indexmap::IndexMap;
use std::alloc::{AllocError, Global};

/// A declaration of a function: its name, and the number of the definition, or of the first prototype where the file has no
/// definition.
#[derive(Drop)]
pub struct Signature {
    pub name: u32,
    pub decl: u32,
    /// Whether the file defines the function.
    pub defined: bool,
    pub params: Vec<CType>,
    pub result: CType,
}

/// The functions that are declared so far, in their order.
#[derive(Drop)]
pub struct Functions {
    pub signatures: Vec<Signature>,
    /// The number of the first declaration of each name, so that a name is found without a look at all of them.
    pub firsts: IndexMap<u32, usize>,
    ghost first: { AreFirst (map name_of_function signatures.items) firsts.entries },
}

impl Functions {
    /// No function.
    pub fn new(alloc: Global) -> Self
        ensures { result.signatures.items ≡ [] }
    {
        Functions {
            signatures: Vec::new(alloc),
            firsts: IndexMap::new(alloc),
        }
    }

    /// The first declaration of a function.
    pub fn called(&self, name: u32) -> Option<&Signature>
        ensures { option_map (λ f. plain_signature f.now) result ≡ function_called name (map plain_signature self.now.signatures.items) }
    {
        match self.firsts.get(&name) {
            Some(number) => Some(&self.signatures[*number]),
            None => None,
        }
    }

    /// One more declaration.
    pub fn push(&mut self, signature: Signature) -> Result<(), AllocError>
        ensures { self.new.signatures.items ≡ cond (is_ok result) (self.old.signatures.items ++ signature ∷ []) self.old.signatures.items }
    {
        let name = signature.name;
        let number = self.signatures.len();
        self.signatures.push(signature)?;
        match note(&mut self.firsts, name, number) {
            Ok(()) => Ok(()),
            Err(e) => {
                self.signatures.truncate(number);
                Err(e)
            }
        }
    }
}

/// A copy of types.
fn copy_types(alloc: Global, types: &[CType]) -> Result<Vec<CType>, AllocError>
    ensures { IfOk result (λ copy. map plain_type copy.items ≡ map plain_type types.now) }
{
    let mut copy = Vec::new(alloc);
    for t in types {
        let t = copy_type(alloc, t)?;
        copy.push(t)?;
    }
    Ok(copy)
}

/// A copy of a signature.
pub fn copy_signature(alloc: Global, f: &Signature) -> Result<Signature, AllocError>
    ensures { IfOk result (λ copy. plain_signature copy ≡ plain_signature f.now) }
{
    let params = copy_types(alloc, &f.params)?;
    let result = copy_type(alloc, &f.result)?;
    Ok(Signature {
        name: f.name,
        decl: f.decl,
        defined: f.defined,
        params,
        result,
    })
}
