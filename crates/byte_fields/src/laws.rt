ghost use Rattle.std.specs.Prelude.{◌≡◌, ◌<◌, ◌^◌, ℕ, ℤ, List, ◌∷◌, ◌++◌, length, Ok, FitsSigned};
ghost use Rattle.std.specs.List.{AllByRecursion, flat_map};
ghost use Rattle.std.specs.Int.{w8, w16, w32, w64, to_be_bytes};
ghost use Rattle.byte_fields.specs.Reading.{number_at, signed_at, list_at, bytes_at, magic_at, signed_text};

/// What is spelled is read again, whatever follows it. This does nothing: it states a law.
pub fn spelled_fields_are_read()
    ensures byte { (n : ℕ) (rest : List ℕ) → number_at w8 (n ∷ rest) ≡ Ok (n, rest) }
    ensures two { (n : ℕ) (rest : List ℕ) → n < 2 ^ 16 → number_at w16 (to_be_bytes w16 n ++ rest) ≡ Ok (n, rest) }
    ensures four { (n : ℕ) (rest : List ℕ) → n < 2 ^ 32 → number_at w32 (to_be_bytes w32 n ++ rest) ≡ Ok (n, rest) }
    ensures eight { (n : ℕ) (rest : List ℕ) → n < 2 ^ 64 → number_at w64 (to_be_bytes w64 n ++ rest) ≡ Ok (n, rest) }
    ensures signed { (z : ℤ) (rest : List ℕ) → FitsSigned w64 z → signed_at (signed_text z ++ rest) ≡ Ok (z, rest) }
    ensures many_signed { (zs : List ℤ) (rest : List ℕ) → AllByRecursion (FitsSigned w64) zs → list_at signed_at (length zs) (flat_map signed_text zs ++ rest) ≡ Ok (zs, rest) }
    ensures bytes { (front rest : List ℕ) → bytes_at (length front) (front ++ rest) ≡ Ok (front, rest) }
    ensures magic { (magic rest : List ℕ) → magic_at magic (magic ++ rest) ≡ Ok (magic, rest) }
{}

/// What is read was spelled so. This does nothing: it states a law.
pub fn read_fields_were_spelled(bytes: &[u8])
    ensures byte { (n : ℕ) (rest : List ℕ) → number_at w8 bytes.now ≡ Ok (n, rest) → bytes.now ≡ n ∷ rest }
    ensures two { (n : ℕ) (rest : List ℕ) → number_at w16 bytes.now ≡ Ok (n, rest) → bytes.now ≡ to_be_bytes w16 n ++ rest }
    ensures four { (n : ℕ) (rest : List ℕ) → number_at w32 bytes.now ≡ Ok (n, rest) → bytes.now ≡ to_be_bytes w32 n ++ rest }
    ensures eight { (n : ℕ) (rest : List ℕ) → number_at w64 bytes.now ≡ Ok (n, rest) → bytes.now ≡ to_be_bytes w64 n ++ rest }
    ensures signed { (z : ℤ) (rest : List ℕ) → signed_at bytes.now ≡ Ok (z, rest) → bytes.now ≡ signed_text z ++ rest }
    ensures many_signed { (n : ℕ) (zs : List ℤ) (rest : List ℕ) → list_at signed_at n bytes.now ≡ Ok (zs, rest) → bytes.now ≡ flat_map signed_text zs ++ rest }
    ensures many { (n : ℕ) (front rest : List ℕ) → bytes_at n bytes.now ≡ Ok (front, rest) → bytes.now ≡ front ++ rest }
    ensures magic { (magic front rest : List ℕ) → magic_at magic bytes.now ≡ Ok (front, rest) → bytes.now ≡ magic ++ rest }
{
    let _ = bytes;
}
