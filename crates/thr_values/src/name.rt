//! Names as texts.

ghost use Rattle.std.specs.Prelude.{◌≡◌, ◌≤◌, ◌<◌, length, IfOk, nat_eq};
ghost use Rattle.std.specs.Hash as fed;
ghost use Rattle.std.specs.Cmp.Lexicographic.{pointwise, nat_list_eq_equiv};
ghost use Rattle.std.specs.Cmp.{partial_equiv_from_equiv};
ghost use Rattle.std.specs.Cmp.Rules.{hashing};
ghost use Rattle.std.proofs.Common.{rules};
ghost use Rattle.thr_values.specs.Names.{IsNameText};

use arrayvec::ArrayVec;
use std::alloc::{AllocError, Global};
use std::hash::{Hash, Hasher};
use std::marker::Model;

/// A name of a script, which contracts see as its bytes: 1 to 24 of them. They lie in the value itself, so names take no memory of
/// their own, though those who make one by an allocator answer for it.
#[derive(Debug, Drop)]
pub struct Name {
    bytes: ArrayVec<u8, 24>,
}

impl Model for Name {
    ghost use Rattle.std.specs.Prelude.{List, ℕ};
    ghost use Rattle.std.specs.Coded.{coded_list, coded_ℕ};
    ghost use Rattle.thr_values.specs.Names.{IsNameText};

    ghost Value = { List ℕ };

    ghost coded = { coded_list coded_ℕ };

    ghost view = { λ n. n.bytes.items };

    ghost invariant = { λ n. IsNameText n.bytes.items };
}

impl Name {
    /// A name with these bytes. Whether they have the form of a name is the caller's affair.
    pub fn from_slice(_alloc: Global, text: &[u8]) -> Result<Name, AllocError>
        requires { IsNameText text.now }
        ensures { IfOk result (λ n. n ≡ text.now) }
    {
        let mut bytes = ArrayVec::new();
        match bytes.try_extend_from_slice(text) {
            Ok(()) => Ok(Name { bytes }),
            Err(_) => Err(AllocError),
        }
    }

    pub fn as_slice(&self) -> &[u8]
        ensures text { result.now ≡ self.now }
        ensures size { IsNameText self.now }
    {
        self.bytes.as_slice()
    }
}

impl Clone for Name {
    ghost is_clone = { λ name copy. copy ≡ name };

    fn clone(&self) -> Result<Name, AllocError> {
        let bytes = self.bytes.clone()?;
        Ok(Name { bytes })
    }
}

impl PartialEq for Name {
    ghost eq = { pointwise nat_eq };

    ghost laws = { partial_equiv_from_equiv nat_list_eq_equiv };

    fn eq(&self, other: &Name) -> bool {
        self.as_slice() == other.as_slice()
    }
}

impl Eq for Name {
    ghost laws = { nat_list_eq_equiv };
}

impl Hash for Name {
    ghost hash_input = { fed.slice fed.u8 };

    ghost respects_eq = { Prim.search (hashing, rules) };

    fn hash<H: Hasher>(&self, state: &mut H) {
        self.as_slice().hash(state);
    }
}
