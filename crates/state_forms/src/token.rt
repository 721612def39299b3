//! Tokens as bytes.
ghost use Rattle.xs_base.specs.declared.token.Token.{Token};
ghost use Rattle.state_forms.specs.Tokens.{token};

use crate::field::Field;
use byte_forms::{Fault, Reader, write_byte};
use std::alloc::AllocError;
use xs_base::{Text, Token};

impl Field for Token {
    ghost Value = { Token };

    ghost view = { λ t. t };

    ghost form = { token };

    #[tactic(auto, unfolding(crate::specs::Tokens::token))]
    fn read(from: &mut Reader) -> Result<Token, Fault> {
        let kind = from.read_byte_below(2)?;
        let value = from.read_byte()?;
        Ok(if kind == 0 {
            Token::Byte(value)
        } else {
            Token::Ctrl(value)
        })
    }

    #[tactic(auto, unfolding(crate::specs::Tokens::token))]
    fn write(&self, out: &mut Text) -> Result<(), AllocError> {
        match *self {
            Token::Byte(b) => {
                write_byte(out, 0)?;
                write_byte(out, b)
            }
            Token::Ctrl(c) => {
                write_byte(out, 1)?;
                write_byte(out, c)
            }
        }
    }
}
