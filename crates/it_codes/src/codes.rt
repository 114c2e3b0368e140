//! Linear codes.
ghost use Rattle.std.specs.Prelude.{◌≡◌, ◌^◌, length, map};
ghost use Rattle.it_codes.specs.Codes.{functions_of, size, variables_of, IsCode};

use std::marker::Model;

/// A finite field.
#[derive(Clone, Copy, Debug, PartialEq, Eq)]
pub enum Field {
    Two,
    Three,
}

impl Field {
    /// The number of elements.
    pub fn size(self) -> u32
        ensures { result ≡ size self }
    {
        match self {
            Field::Two => 2,
            Field::Three => 3,
        }
    }
}

/// A variable: linear functions of the message, each given by its coefficients at the message's symbols, in order. Coefficients are
/// taken modulo the field's size; missing ones are 0, and those past the last symbol are ignored.
#[derive(Debug, Drop)]
pub struct Variable {
    pub functions: Vec<Vec<u8>>,
}

/// Variables that are functions of one uniform message of `symbols` symbols of the field.
#[derive(Debug)]
pub struct LinearCode {
    pub field: Field,
    pub symbols: u8,
    pub variables: Vec<Variable>,
}

impl Model for LinearCode {
    ghost use Rattle.std.specs.Prelude.{map};
    ghost use Rattle.it_codes.specs.Codes.{functions_of, CodeView, IsCode};

    ghost Value = { CodeView };

    ghost view = { λ c. record { field = c.field; symbols = c.symbols; variables = map functions_of c.variables.items } };

    ghost invariant = { λ c. IsCode (record { field = c.field; symbols = c.symbols; variables = map functions_of c.variables.items }) };
}

impl LinearCode {
    /// What is true of every code.
    pub fn facts(&self)
        ensures { IsCode self.now }
    {
        let _ = &self.symbols;
    }

    /// The field of the message's symbols.
    pub fn field(&self) -> Field
        ensures { result ≡ self.now.field }
    {
        self.field
    }

    /// The number of messages.
    pub fn message_count(&self) -> u32
        ensures { result ≡ size self.now.field ^ self.now.symbols }
    {
        self.field.size().pow(self.symbols as u32)
    }

    /// The variables, in order.
    pub fn variables(&self) -> &[Variable]
        ensures value { map functions_of result.now ≡ self.now.variables }
        ensures count { length result.now ≡ variables_of self.now }
        ensures code { IsCode self.now }
    {
        self.variables.as_slice()
    }

    /// The number of variables.
    pub fn variable_count(&self) -> u8
        ensures value { result ≡ variables_of self.now }
        ensures code { IsCode self.now }
    {
        self.variables.len() as u8
    }
}

impl Drop for LinearCode {
    fn drop(self) {
        let LinearCode {
            field: _,
            symbols: _,
            variables: _,
        } = self;
    }
}
