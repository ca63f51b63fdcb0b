ghost use Rattle.std.specs.Prelude.{◌≡◌, IfOk, IfSome, IfNone};
ghost use Rattle.bspl_types.specs.Shape.{IsWellFormed, key_indices};

use super::limits::PARAM_LIMIT;
use super::protocol::{Message, MessageList, ParamInfo, ParamInfoList};
use super::shape::{is_well_formed, key_indices};
use super::{Name, NameList, NumberList};
use list_base::{NoMemory, Seq, TryClone};
use std::alloc::Global;

/// A protocol after expansion: messages alone, in order, with their parameters by index.
///
/// The first `public` entries of `params` are the public parameters; `keys` are the indices of
/// those that are marked as keys.
#[derive(Drop)]
pub struct Expanded {
    pub name: Name,
    pub roles: NameList,
    pub params: ParamInfoList,
    pub public: u32,
    pub keys: NumberList,
    pub messages: MessageList,
    pub ghost shape: { IsWellFormed name roles params public keys messages },
}

impl Expanded {
    ghost use Rattle.std.specs.Prelude.{◌<◌, length};
    ghost use Rattle.bspl_types.specs.Expansion.{message_of};
    ghost use Rattle.bspl_types.specs.Parts.{HasParts};

    /// The expansion with these parts, or nothing if they are not well formed.
    pub fn assemble(
        alloc: Global,
        name: Name,
        roles: NameList,
        params: ParamInfoList,
        public: u32,
        messages: MessageList,
    ) -> Result<Option<Expanded>, NoMemory>
        ensures made { IfOk result (λ made.
            IfSome made (λ x. HasParts x name roles params public messages)) }
        ensures refused { IfOk result (λ made.
            IfNone made (¬ IsWellFormed name roles params public (key_indices params) messages)) }
    {
        if params.len() > PARAM_LIMIT {
            return Ok(None);
        }
        let keys = key_indices(alloc, params.as_slice())?;
        if is_well_formed(
            name.as_slice(),
            roles.as_slice(),
            params.as_slice(),
            public,
            keys.as_slice(),
            messages.as_slice(),
        ) {
            Ok(Some(Expanded {
                name,
                roles,
                params,
                public,
                keys,
                messages,
            }))
        } else {
            Ok(None)
        }
    }

    /// The message of that number.
    pub fn message_at(&self, message: u32) -> &Message
        requires { message < length self.now.messages }
        ensures { result.now ≡ message_of self.now message }
    {
        self.messages.at(message as usize)
    }
}

impl TryClone for Expanded {
    fn try_clone(&self) -> Result<Expanded, NoMemory> {
        Ok(Expanded {
            name: self.name.try_clone()?,
            roles: self.roles.try_clone()?,
            params: self.params.try_clone()?,
            public: self.public,
            keys: self.keys.try_clone()?,
            messages: self.messages.try_clone()?,
        })
    }
}
