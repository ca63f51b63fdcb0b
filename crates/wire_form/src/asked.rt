use super::member::Member;

/// A name and a text, as they are in the JSON.
#[derive(Clone, Copy, Debug)]
pub(crate) struct Field<'a> {
    pub name: &'a str,
    pub text: &'a str,
}

impl Member for Field<'_> {
    ghost use Rattle.serde_json.specs.Data.{string};

    ghost name = { λ f. f.name.now };

    ghost content = { λ f. string f.text.now };

    fn name(&self) -> &[u8] {
        self.name.as_bytes()
    }
}

/// A message that is to be received, as it is in the JSON.
#[derive(Drop)]
pub(crate) struct AskedReceipt<'a> {
    pub message: &'a str,
    pub number: u64,
    pub stamp: u64,
    pub fields: Vec<Field<'a>>,
}

/// A message that is to be emitted, as it is in the JSON.
#[derive(Drop)]
pub(crate) struct AskedEmission<'a> {
    pub key: Vec<&'a str>,
    pub message: &'a str,
    pub outs: Vec<&'a str>,
}

/// What a line asks for, before names and spellings are read.
#[derive(Drop)]
pub(crate) enum Asked<'a> {
    Receipt(AskedReceipt<'a>),
    Emission(AskedEmission<'a>),
}
