// A lent calendar is a calendar too, so that a layer can be laid over one that is only borrowed.
use crate::calendar::Calendar;

impl<C: Calendar> Calendar for &C {
    ghost end = { λ c. C.Calendar.end c.now };

    ghost mask = { λ c s. C.Calendar.mask c.now s };

    fn end(&self) -> u16 {
        Calendar::end(*self)
    }

    fn mask(&self, slot: u16) -> u8 {
        Calendar::mask(*self, slot)
    }

    ghost end_bound = { λ c. C.Calendar.end_bound c.now };

    ghost mask_bound = { λ c s. C.Calendar.mask_bound c.now s };

    ghost mask_after = { λ c s h. C.Calendar.mask_after c.now s h };
}
