//! Tests of the fields at numbers: what no clause says of a trait's constants, and what is worth seeing run.

#![tactic(auto)]

#[cfg(test)]
mod tests {
    use fields::byte::Byte;
    use fields::field::Field;
    use fields::modulus::{Modulus, Z13, Z41, Z257};
    use std::process::Abort;
    use std::test::Fail;

    // A field's constants are what its methods answer.
    fn states<F: Field>(rt: &impl Abort, largest_id: u8, bytes: usize, field_byte: u8) {
        assert!(rt; F::LARGEST_ID == largest_id && F::max_id() == largest_id);
        assert!(rt; F::BYTES == bytes && F::byte_length() == bytes);
        assert!(rt; F::FIELD_BYTE == field_byte && F::name_byte() == field_byte);
    }

    #[test]
    fn constants(rt: HostRuntime) {
        states::<Z13>(&rt, 12, 1, 1);
        states::<Z41>(&rt, 32, 1, 2);
        states::<Z257>(&rt, 32, 2, 3);
        states::<Byte>(&rt, 32, 1, 4);
    }

    // Each element but zero times its inverse is one, and zero has none.
    fn inverts<F: Field>(rt: &impl Abort) -> Result<(), Fail> {
        for n in 0..=F::largest_number() {
            let x = F::element(n).ok_or(n)?;
            match x.inverse() {
                Some(y) => assert!(rt; x * y == F::one() && n != 0),
                None => assert!(rt; n == 0),
            }
        }
        Ok(())
    }

    #[test]
    fn inverses(rt: HostRuntime) -> Result<(), Fail> {
        inverts::<Z13>(&rt)?;
        inverts::<Z41>(&rt)?;
        inverts::<Z257>(&rt)?;
        inverts::<Byte>(&rt)
    }

    // The product of two bytes, by their numbers.
    fn multiplies(rt: &impl Abort, x: u32, y: u32, product: u32) -> Result<(), Fail> {
        let a = Byte::element(x).ok_or(x)?;
        let b = Byte::element(y).ok_or(y)?;
        assert!(rt; (a * b).number() == product);
        Ok(())
    }

    // The products that FIPS 197 works out.
    #[test]
    fn products_of_bytes(rt: HostRuntime) -> Result<(), Fail> {
        multiplies(&rt, 0x57, 0x83, 0xc1)?;
        multiplies(&rt, 0x57, 0x02, 0xae)?;
        multiplies(&rt, 0x57, 0x04, 0x47)?;
        multiplies(&rt, 0x57, 0x08, 0x8e)?;
        multiplies(&rt, 0x57, 0x10, 0x07)?;
        multiplies(&rt, 0x57, 0x13, 0xfe)
    }
}
