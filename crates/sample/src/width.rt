// The two widths of a sample: 16 bits, 11 of them fraction bits (document 01, 'Angle and sample'), and 18 bits, 13 of them (document 02, Job 8), in 32.
ghost use Rattle.std.specs.Prelude.{◌≡◌, ℕ, ℤ, List, map, nat_abs, ◌+◌, ◌*◌, ◌/◌, ◌^◌, ◌≤◌};
ghost use Rattle.std.specs.Int.{Width, w16, w32, int_wrap};
ghost use Rattle.std.proofs.Common.{refl, sym};
ghost use Rattle.std.proofs.Math.Facts.{leb_yes};
ghost use Rattle.std.proofs.lemmas.List.{map-id};
ghost use Rattle.std.proofs.lemmas.Int.{int_wrap_fits};
ghost use Rattle.std.proofs.Math.Nat.{lt_of_le_of_lt};
ghost use Rattle.signs.proofs.Sizes.{size_fits};
ghost use Rattle.exact.specs.Fraction.{Fraction};
ghost use Rattle.box_muller.specs.Steps.{fraction_bits, fraction_bits18, size};
ghost use Rattle.box_muller.specs.Sample.{nine_sixteenths, three_quarters};
ghost use Rattle.box_muller.specs.DataSheet.{thirty_three_sixty_fourths};
ghost use Rattle.box_muller.specs.Theorems.{largest};
ghost use Rattle.box_muller.proofs.Closeness.{samples_close, room, closer_room, room18};
ghost use Rattle.box_muller.proofs.Widths.{scaled16, scaled18};
ghost use Rattle.sample.specs.Samples.{Within};

use crate::SHORT;

// A sample, as a whole number of units of 2^-bits. What is proved of samples is proved once, over these laws.
pub trait Sample: Copy {
    // Its fraction bits.
    ghost bits: { ℕ };

    // How near it is to its member of the exact pair, in its units, and a second limit.
    ghost limit: { Fraction };

    ghost closer: { Fraction };

    // The units of one, and those of a list.
    ghost value: { Self → ℤ };

    ghost values: { List Self → List ℤ };

    // How many of its units make one of 2^-11.
    ghost SCALE: { ℕ };

    const SCALE: u32;

    // The most samples of a short block, which is drawn in short chunks: 0 where their stack is not to be had.
    const SHORT_BLOCK: usize;

    // The bits that it is stored in.
    ghost width: { Width };

    // The sample of so many units; of a number that the width does not hold, what two's complement keeps of it, as `as` does.
    // By a remainder: `try_from` would test each sample of a block.
    fn of_units(units: i64) -> Self
        ensures { value result ≡ int_wrap width units };

    ghost each: { (l : List Self) → values l ≡ map value l };

    ghost few_bits: { bits ≤ 13 };

    // It keeps every sample as it is.
    ghost holds: { (n : ℤ) → nat_abs n ≤ largest bits → int_wrap width n ≡ n };

    ghost small_scale: { SCALE ≤ 4 };

    ghost scaled: { (F G : ℕ) → (F * SCALE * G + 2 ^ 38) / 2 ^ 39 ≡ size bits F G };

    ghost within: { Within limit bits };

    ghost within_closer: { Within closer bits };
}

impl Sample for i16 {
    ghost bits = { fraction_bits };

    ghost limit = { nine_sixteenths };

    ghost closer = { thirty_three_sixty_fourths };

    ghost value = { λ x. x };

    ghost values = { λ l. l };

    ghost SCALE = { 1 };

    const SCALE: u32 = 1;

    const SHORT_BLOCK: usize = 2 * SHORT;

    ghost width = { w16 };

    fn of_units(units: i64) -> i16 {
        ((units.cast_unsigned() % (1 << 16)) as u16).cast_signed()
    }

    ghost each = { λ l. sym (map-id l) };

    ghost few_bits = { leb_yes tt };

    ghost holds = { λ n small. int_wrap_fits w16 n (size_fits w16 n (lt_of_le_of_lt small (leb_yes tt))) };

    ghost small_scale = { leb_yes tt };

    ghost scaled = { scaled16 refl };

    ghost within = { λ k v. samples_close nine_sixteenths fraction_bits k v room };

    ghost within_closer = { λ k v. samples_close thirty_three_sixty_fourths fraction_bits k v closer_room };
}

impl Sample for i32 {
    ghost bits = { fraction_bits18 };

    ghost limit = { three_quarters };

    ghost closer = { three_quarters };

    ghost value = { λ x. x };

    ghost values = { λ l. l };

    ghost SCALE = { 4 };

    const SCALE: u32 = 4;

    const SHORT_BLOCK: usize = 0;

    ghost width = { w32 };

    fn of_units(units: i64) -> i32 {
        ((units.cast_unsigned() % (1 << 32)) as u32).cast_signed()
    }

    ghost each = { λ l. sym (map-id l) };

    ghost few_bits = { leb_yes tt };

    ghost holds = { λ n small. int_wrap_fits w32 n (size_fits w32 n (lt_of_le_of_lt small (leb_yes tt))) };

    ghost small_scale = { leb_yes tt };

    ghost scaled = { scaled18 refl };

    ghost within = { λ k v. samples_close three_quarters fraction_bits18 k v room18 };

    ghost within_closer = { λ k v. samples_close three_quarters fraction_bits18 k v room18 };
}
