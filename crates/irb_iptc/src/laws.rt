//! Laws of the definitions. The functions do nothing: each clause holds of all bytes.
ghost use Rattle.std.specs.Prelude.{◌≡◌, ◌≢◌, ◌⊎◌, ◌-◌, ◌≤◌, ℕ, List, length, slice_get, Some};
ghost use Rattle.lent_bytes.specs.Lending.{replaced};
ghost use Rattle.irb_iptc.specs.Listing.{Broken, Listing, Lists, Placed};
ghost use Rattle.irb_iptc.specs.Digest.{bytes_in};

/// Bytes have at most one list of blocks, at most one block that they end in, and not both.
pub fn one_answer()
    ensures list { (bytes : List ℕ) (at : ℕ) (a b : Listing) → Lists bytes at a → Lists bytes at b → a ≡ b }
    ensures fault { (bytes : List ℕ) (at m n : ℕ) → Broken bytes at m → Broken bytes at n → m ≡ n }
    ensures either { (bytes : List ℕ) (at m : ℕ) (a : Listing) → Lists bytes at a → Broken bytes at m → ⊥ }
{}

/// The data of a block, exchanged for as many other bytes: the list is the old one, and so is the
/// data of each other block. The data stands in its block, and no other block meets that one.
pub fn exchange()
    ensures list { (bytes new : List ℕ) (listing : Listing) (i : ℕ) (block : Placed) → Lists bytes 0 listing → slice_get listing.blocks i ≡ Some block
        → length new ≡ block.body.end - block.body.start → Lists (replaced bytes block.body.start block.body.end new) 0 listing }
    ensures inside { (bytes : List ℕ) (at : ℕ) (listing : Listing) (i : ℕ) (block : Placed) → Lists bytes at listing → slice_get listing.blocks i ≡ Some block
        → (block.whole.start ≤ block.body.start) × (block.body.start ≤ block.body.end) × (block.body.end ≤ block.whole.end) × (block.whole.end ≤ listing.end) }
    ensures apart { (bytes : List ℕ) (at : ℕ) (listing : Listing) (i j : ℕ) (a b : Placed) → Lists bytes at listing → slice_get listing.blocks i ≡ Some a
        → slice_get listing.blocks j ≡ Some b → i ≢ j → (a.whole.end ≤ b.whole.start) ⊎ (b.whole.end ≤ a.whole.start) }
    ensures others { (bytes new : List ℕ) (listing : Listing) (i j : ℕ) (a b : Placed) → Lists bytes 0 listing → slice_get listing.blocks i ≡ Some a
        → slice_get listing.blocks j ≡ Some b → i ≢ j → length new ≡ a.body.end - a.body.start
        → bytes_in (replaced bytes a.body.start a.body.end new) b.whole ≡ bytes_in bytes b.whole }
{}
