//! The elements of the tables: one for each frame of a package's text.
ghost use Rattle.std.specs.Prelude.{◌≡◌, ◌≢◌, ◌≤◌, Some, take, length};

/// `02 EE DD`: the second domain dominates the first.
#[derive(Clone, Copy, Debug, PartialEq, Eq)]
pub struct Pair {
    pub low: u8,
    pub high: u8,
}

/// `03 dd k s..`: a class of a domain, with its direct supertypes at the start of their array.
#[derive(Clone, Copy, Debug, PartialEq, Eq)]
pub struct Class {
    pub domain: u8,
    pub supertype_count: u8,
    pub supertypes: [u8; 4],
    pub ghost few_supertypes: { supertype_count ≤ 4 },
}

impl Class {
    /// The direct supertypes, in the order of the frame.
    pub fn supertypes(&self) -> &[u8]
        ensures value { result.now ≡ take self.now.supertype_count self.now.supertypes }
        ensures few { length result.now ≤ 4 }
    {
        &self.supertypes[..usize::from(self.supertype_count)]
    }
}

/// Whether a field or a method belongs to the class or to each of its objects: the byte 01 or 00.
#[derive(Clone, Copy, Debug, PartialEq, Eq)]
pub enum Mode {
    Instance,
    Static,
}

/// `04 cc tt ss`: a field of a class and of a type.
#[derive(Clone, Copy, Debug, PartialEq, Eq)]
pub struct Field {
    pub class: u8,
    pub typ: u8,
    pub mode: Mode,
}

/// `05 cc ll ss hh hh rr k p..`: a method of a class, with its granting label, its slot (0 for a static one), its return type
/// if it has one, and its parameter types at the start of their array.
#[derive(Clone, Copy, Debug, PartialEq, Eq)]
pub struct Method {
    pub class: u8,
    pub label: u8,
    pub slot: u16,
    pub result: Option<u8>,
    pub mode: Mode,
    pub parameter_count: u8,
    pub parameters: [u8; 6],
    pub ghost few_parameters: { parameter_count ≤ 6 },
    pub ghost result_fits: { result ≢ Some 0xFF },
}

impl Method {
    /// The parameter types, in order.
    pub fn parameters(&self) -> &[u8]
        ensures value { result.now ≡ take self.now.parameter_count self.now.parameters }
        ensures few { length result.now ≤ 6 }
    {
        &self.parameters[..usize::from(self.parameter_count)]
    }
}

/// What an effect lets a method do: to a class (the first two), to a static field, to an instance field, or with a method.
#[derive(Clone, Copy, Debug, PartialEq, Eq)]
pub enum Operation {
    New,
    CheckCast,
    GetStatic,
    PutStatic,
    GetField,
    PutField,
    InvokeStatic,
    InvokeMethod,
}

/// `06 mm op xx`: the method may do this operation to the class, field or method of this number.
#[derive(Clone, Copy, Debug, PartialEq, Eq)]
pub struct Effect {
    pub method: u8,
    pub operation: Operation,
    pub number: u8,
}
