//! Laws of the definitions, each the contract of a function that does nothing.
ghost use Rattle.std.specs.Prelude.{◌≡◌, ◌≢◌, ◌↔◌, ℕ, List, Option, Some, Ok, IfErr};
ghost use Rattle.hb_text.specs.declared.digests.Digest.{Digest};
ghost use Rattle.hb_manifest.specs.declared.manifests.Manifest.{Manifest};
ghost use Rattle.hb_manifest.specs.declared.manifests.ManifestFault.{ManifestFault};
ghost use Rattle.hb_manifest.specs.Descriptors.{digest_in};
ghost use Rattle.hb_manifest.specs.Forms.{manifest_form};
ghost use Rattle.hb_manifest.specs.Laws.{IsTextOf, IsManifest};

/// A text names a digest exactly where it is the one that is written for it. So the definition of a
/// manifest reads digests as [`Digest::read`](hb_text::Digest::read) does.
pub fn digests_have_one_text()
    ensures { (text : List ℕ) (d : Digest) → (digest_in text ≡ Some d) ↔ IsTextOf text d }
{}

/// What is read as a manifest keeps to the limits, has a known media type and schema 2, and lists
/// descriptors alone. Its references and its children have no digest twice, and they have exactly the
/// digests of the descriptors that count for them.
pub fn manifests_are_sound()
    ensures { (header : Option (List ℕ)) (bytes : List ℕ) (m : Manifest) → manifest_form header bytes ≡ Ok m → IsManifest header bytes m }
{}

/// Each refusal of the definition names a cause in the manifest. Want of memory is none.
pub fn refusals_have_a_cause()
    ensures { (header : Option (List ℕ)) (bytes : List ℕ) → IfErr (manifest_form header bytes) (λ e. e ≢ ManifestFault.Memory) }
{}
