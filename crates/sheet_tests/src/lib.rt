// Examples of fields, shapes, points and forms.
#![tactic(auto)]

ghost use Rattle.std.proofs.Common.{lit<};
ghost use Rattle.residue.specs.Remainders.{residues_lawful};

#[cfg(test)]
mod tests {
    use binary::{B4, B16};
    use fault::{Fault, Part};
    use field::{Field, power};
    use form::{Form, FormFault, coefficient_count, gap};
    use residue::{Modulus, R5, R7, R13, Residue};
    use space::{PointFault, Shape, ShapeFault, place_of, point_of};
    use std::test::Fail;

    // A lawful field whose size has no column.
    struct Seventeen;

    impl Modulus for Seventeen {
        ghost Q = { 17 };

        ghost lawful = { residues_lawful 17 (lit< tt) tt };

        const Q: u8 = 17;
    }

    #[test]
    fn products_and_inverses(rt: HostRuntime) {
        assert_eq!(rt; B4::mul(2, 3), 1);
        assert_eq!(rt; B16::mul(8, 2), 3);
        assert_eq!(rt; B16::mul(16, 1), 0);
        assert_eq!(rt; R7::inv(3), Some(5));
        assert_eq!(rt; R7::inv(0), None);
        assert_eq!(rt; R7::inv(7), None);
        assert_eq!(rt; R7::neg(3), 4);
        assert_eq!(rt; power::<R7>(3, 6), 1);
        assert_eq!(rt; power::<R7>(0, 0), 1);
    }

    #[test]
    fn shapes_are_refused_in_order(rt: HostRuntime) {
        assert_eq!(rt;
            Shape::new::<Residue<Seventeen>>(0, 0).err(),
            Some(ShapeFault::NoColumn)
        );
        assert_eq!(rt;
            Shape::new::<R5>(0, 0).err(),
            Some(ShapeFault::WrongVariables)
        );
        assert_eq!(rt;
            Shape::new::<R5>(4, 0).err(),
            Some(ShapeFault::WrongVariables)
        );
        assert_eq!(rt; Shape::new::<R5>(3, 0).err(), Some(ShapeFault::WrongDegree));
        assert_eq!(rt; Shape::new::<R5>(3, 5).err(), Some(ShapeFault::WrongDegree));
        assert_eq!(rt; Shape::new::<R5>(3, 4).err(), None);
        assert_eq!(rt; ShapeFault::WrongDegree.number(), 3);
        assert_eq!(rt; ShapeFault::WrongDegree.part(), Part::Shape);
    }

    #[test]
    fn places_of_points(rt: HostRuntime) -> Result<(), Fail> {
        let shape = Shape::new::<R5>(2, 2)?;
        assert_eq!(rt; place_of::<R5>(shape, [1, 2, 2, 0]), Ok(12));
        assert_eq!(rt; place_of::<R5>(shape, [0, 1, 3, 0]), Ok(28));
        assert_eq!(rt; place_of::<R5>(shape, [0, 0, 1, 0]), Ok(30));
        assert_eq!(rt; place_of::<R5>(shape, [2, 1, 0, 0]), Ok(15));
        assert_eq!(rt;
            place_of::<R7>(shape, [9, 9, 9, 9]),
            Err(PointFault::OtherField)
        );
        assert_eq!(rt;
            place_of::<R5>(shape, [1, 5, 9, 9]),
            Err(PointFault::NotACoordinate { position: 1 })
        );
        assert_eq!(rt;
            place_of::<R5>(shape, [1, 2, 2, 1]),
            Err(PointFault::NotACoordinate { position: 3 })
        );
        assert_eq!(rt;
            place_of::<R5>(shape, [0, 0, 0, 0]),
            Err(PointFault::AllZero)
        );
        Ok(())
    }

    #[test]
    fn points_of_places(rt: HostRuntime) -> Result<(), Fail> {
        let shape = Shape::new::<R5>(2, 2)?;
        assert!(rt; point_of::<R5>(shape, 28)? == [0, 1, 3, 0]);
        assert!(rt; point_of::<R7>(shape, 31).is_err());
        let fault = point_of::<R5>(shape, 31).err().ok_or("31 is a place")?;
        assert_eq!(rt;
            (fault.part(), fault.number(), fault.position()),
            (Part::Plate, 30, 31)
        );
        Ok(())
    }

    #[test]
    fn values_of_forms(rt: HostRuntime) -> Result<(), Fail> {
        let shape = Shape::new::<R5>(2, 2)?;
        let form = Form::new(shape, &[1, 2, 0, 0, 3, 1]);
        assert_eq!(rt; form.value::<R5>([1, 2, 2, 0]), Ok(1));
        assert_eq!(rt; form.symbol::<R5>(28), Ok(3));
        assert_eq!(rt; form.symbol::<R7>(31), Err(FormFault::OtherField));
        assert_eq!(rt;
            Form::new(shape, &[1, 2, 0, 0, 3]).symbol::<R5>(31),
            Err(FormFault::WrongCount)
        );
        let large = Form::new(shape, &[1, 2, 0, 5, 6, 1]);
        assert_eq!(rt;
            large.value::<R5>([5, 0, 0, 0]),
            Err(FormFault::NotACode { position: 3 })
        );
        assert_eq!(rt;
            form.symbol::<R5>(31),
            Err(FormFault::AtPoint(PointFault::NoPlace { place: 31 }))
        );
        Ok(())
    }

    #[test]
    fn numbers_of_shapes(rt: HostRuntime) -> Result<(), Fail> {
        let wide = Shape::new::<B16>(3, 15)?;
        assert_eq!(rt;
            (wide.n, coefficient_count(wide), gap(wide)),
            (4369, 816, 256)
        );
        let flat = Shape::new::<R13>(1, 3)?;
        assert_eq!(rt; (flat.n, coefficient_count(flat), gap(flat)), (14, 4, 10));
        Ok(())
    }
}
