// The structs of include/tinplateau.h, and what a call answers as one of them.
ghost use Rattle.std.specs.Prelude.{◌≡◌};
ghost use Rattle.checks.specs.Answers.{reading};
ghost use Rattle.masking.specs.Answers.{string_reading, residue_reading};
ghost use Rattle.capi.specs.Structs.{answer_of, string_of, residue_of, signed_of, parameters_of};

use binomial::ParameterSet;
use checks::Refusal;
use masking::{OpenedResidue, OpenedString};
use residue::Word;

#[repr(C)]
#[derive(Clone, Copy)]
pub struct TpAnswer {
    pub code: u32,
    pub value: usize,
}

#[repr(C)]
#[derive(Clone, Copy)]
pub struct TpString {
    pub bits: u16,
}

#[repr(C)]
#[derive(Clone, Copy)]
pub struct TpResidue {
    pub value: Word,
}

#[repr(C)]
#[derive(Clone, Copy)]
pub struct TpOpenedString {
    pub code: u32,
    pub position: usize,
    pub opened: TpString,
}

#[repr(C)]
#[derive(Clone, Copy)]
pub struct TpOpenedResidue {
    pub code: u32,
    pub position: usize,
    pub opened: TpResidue,
}

#[repr(C)]
#[derive(Clone, Copy)]
pub struct TpSigned {
    pub code: u32,
    pub position: usize,
    pub value: i32,
}

#[repr(C)]
#[derive(Clone, Copy)]
pub struct TpParameters {
    pub code: u32,
    pub k: usize,
    pub q: Word,
}

impl From<Result<usize, Refusal>> for TpAnswer {
    ghost from_gives = { λ answer given. given ≡ answer_of (reading answer) };

    fn from(answer: Result<usize, Refusal>) -> TpAnswer {
        match answer {
            Ok(value) => TpAnswer { code: 0, value },
            Err(r) => TpAnswer {
                code: r.code,
                value: r.position,
            },
        }
    }
}

impl From<Result<OpenedString, Refusal>> for TpOpenedString {
    ghost from_gives = { λ answer given. given ≡ string_of (string_reading answer) };

    fn from(answer: Result<OpenedString, Refusal>) -> TpOpenedString {
        match answer {
            Ok(s) => TpOpenedString {
                code: 0,
                position: 0,
                opened: TpString { bits: s.0 },
            },
            Err(r) => TpOpenedString {
                code: r.code,
                position: r.position,
                opened: TpString { bits: 0 },
            },
        }
    }
}

impl From<Result<OpenedResidue, Refusal>> for TpOpenedResidue {
    ghost from_gives = { λ answer given. given ≡ residue_of (residue_reading answer) };

    fn from(answer: Result<OpenedResidue, Refusal>) -> TpOpenedResidue {
        match answer {
            Ok(s) => TpOpenedResidue {
                code: 0,
                position: 0,
                opened: TpResidue { value: s.0 },
            },
            Err(r) => TpOpenedResidue {
                code: r.code,
                position: r.position,
                opened: TpResidue { value: 0 },
            },
        }
    }
}

impl From<Result<i32, Refusal>> for TpSigned {
    ghost from_gives = { λ answer given. given ≡ signed_of (reading answer) };

    fn from(answer: Result<i32, Refusal>) -> TpSigned {
        match answer {
            Ok(value) => TpSigned {
                code: 0,
                position: 0,
                value,
            },
            Err(r) => TpSigned {
                code: r.code,
                position: r.position,
                value: 0,
            },
        }
    }
}

impl From<Result<ParameterSet, Refusal>> for TpParameters {
    ghost from_gives = { λ answer given. given ≡ parameters_of (reading answer) };

    fn from(answer: Result<ParameterSet, Refusal>) -> TpParameters {
        match answer {
            Ok(s) => TpParameters {
                code: 0,
                k: s.k,
                q: s.q,
            },
            Err(r) => TpParameters {
                code: r.code,
                k: 0,
                q: 0,
            },
        }
    }
}
