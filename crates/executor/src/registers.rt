//! The registers of a work-item, and what operations read and set in them.
ghost use Rattle.std.specs.Prelude.{◌≡◌, true, false};
ghost use Rattle.executor.specs.inner.Few.{RestIsZero};
ghost use Rattle.executor.specs.Registers.{cleared, read1, read32, read64, read_any, with1, with32, with64, with_any};

use kernel_check::{AnyRegister, AnySource, RegisterNumber, Source1, Source32, Source64};

/// The registers of a work-item, by class and number (PRM, Registers). Those that steps read most lie first, where
/// an item lies.
#[derive(Clone, Copy)]
pub struct Registers {
    /// `$s0` to `$s63`.
    pub single: [u32; 64],
    /// `$d0` to `$d63`.
    pub double: [u64; 64],
    /// `$c0` to `$c63`.
    pub control: [bool; 64],
}

impl Registers {
    /// Registers that are all zero.
    pub fn cleared() -> Registers
        ensures { result ≡ cleared }
    {
        Registers {
            single: [0; 64],
            double: [0; 64],
            control: [false; 64],
        }
    }

    /// Sets all to zero; or the first eight of each class, where the others are zero.
    #[inline(always)]
    pub fn clear(&mut self, few: bool)
        requires { few ≡ true → RestIsZero self.old }
        ensures { self.new ≡ cleared }
    {
        if !few {
            *self = Registers::cleared();
            return;
        }
        self.single[0] = 0;
        self.single[1] = 0;
        self.single[2] = 0;
        self.single[3] = 0;
        self.single[4] = 0;
        self.single[5] = 0;
        self.single[6] = 0;
        self.single[7] = 0;
        self.double[0] = 0;
        self.double[1] = 0;
        self.double[2] = 0;
        self.double[3] = 0;
        self.double[4] = 0;
        self.double[5] = 0;
        self.double[6] = 0;
        self.double[7] = 0;
        self.control[0] = false;
        self.control[1] = false;
        self.control[2] = false;
        self.control[3] = false;
        self.control[4] = false;
        self.control[5] = false;
        self.control[6] = false;
        self.control[7] = false;
    }

    /// One bit.
    #[inline(always)]
    pub fn read1(&self, source: Source1) -> bool
        ensures { result ≡ read1 self.now source }
    {
        match source {
            Source1::Register(number) => self.control[number.index()],
            Source1::Constant(bit) => bit,
        }
    }

    /// 32 bits.
    #[inline(always)]
    pub fn read32(&self, source: Source32) -> u32
        ensures { result ≡ read32 self.now source }
    {
        match source {
            Source32::Register(number) => self.single[number.index()],
            Source32::Constant(bits) => bits,
        }
    }

    /// 64 bits.
    #[inline(always)]
    pub fn read64(&self, source: Source64) -> u64
        ensures { result ≡ read64 self.now source }
    {
        match source {
            Source64::Register(number) => self.double[number.index()],
            Source64::Constant(bits) => bits,
        }
    }

    /// The bits of a source of any class.
    #[inline(always)]
    pub fn read_any(&self, source: AnySource) -> u64
        ensures { result ≡ read_any self.now source }
    {
        match source {
            AnySource::Control(source) => if self.read1(source) { 1 } else { 0 },
            AnySource::Single(source) => self.read32(source) as u64,
            AnySource::Double(source) => self.read64(source),
        }
    }

    #[inline(always)]
    pub fn set1(&mut self, number: RegisterNumber, bit: bool)
        ensures { self.new ≡ with1 self.old number bit }
    {
        self.control[number.index()] = bit;
    }

    #[inline(always)]
    pub fn set32(&mut self, number: RegisterNumber, bits: u32)
        ensures { self.new ≡ with32 self.old number bits }
    {
        self.single[number.index()] = bits;
    }

    #[inline(always)]
    pub fn set64(&mut self, number: RegisterNumber, bits: u64)
        ensures { self.new ≡ with64 self.old number bits }
    {
        self.double[number.index()] = bits;
    }

    /// Sets a register to the low bits of a number, as many as it has.
    #[inline(always)]
    pub fn set_any(&mut self, register: AnyRegister, bits: u64)
        ensures { self.new ≡ with_any self.old register bits }
    {
        match register {
            AnyRegister::Control(number) => self.set1(number, bits % 2 == 1),
            AnyRegister::Single(number) => self.set32(number, (bits % (1 << 32)) as u32),
            AnyRegister::Double(number) => self.set64(number, bits),
        }
    }
}
