//! Laws of documents.
ghost use Rattle.std.specs.Prelude.{◌≡◌, ◌↔◌, ℕ, if◌then◌else◌, List, Some, None, Ok};
ghost use Rattle.serde_json.specs.Data.{Data};
ghost use Rattle.reg_names.specs.declared.kind.Kind.{Kind};
ghost use Rattle.reg_names.specs.Named.{digests_of, free_in, has_digest};
ghost use Rattle.manifest_doc.specs.Kinds.{object_in};
ghost use Rattle.manifest_doc.specs.Documents.{IsDocument, verdict};
ghost use Rattle.manifest_doc.specs.Members.{names_digest, frees_digest, lists_digest};
ghost use Rattle.manifest_doc.specs.OneDocument.{document_in};
ghost use Rattle.manifest_doc.specs.Stored.{IsStoredManifest, stored_in};
ghost use Rattle.manifest_doc.specs.declared.document.Doc.{Doc};

/// The bytes of a document pass the tests, and these tell its kind.
pub fn documents_pass_the_tests()
    ensures { (bytes : List ℕ) (doc : Doc) → IsDocument bytes doc → verdict bytes ≡ Ok doc.kind }
{}

/// Bytes that pass the tests are a document.
pub fn bytes_that_pass_are_a_document()
    ensures { (bytes : List ℕ) (kind : Kind) → verdict bytes ≡ Ok kind → (doc : Doc) × IsDocument bytes doc }
{}

/// A document names just the digests that its `config` and the elements of its `layers` tell.
pub fn what_is_named_is_held()
    ensures { (bytes : List ℕ) (doc : Doc) (d : Data) → IsDocument bytes doc → object_in bytes ≡ Some d
        → (digest : List ℕ) → has_digest digest (digests_of doc.named) ≡ names_digest digest d }
{}

/// A digest that a document names is free just where `config` does not tell it, and each element of `layers` that
/// tells it has an element in `urls`.
pub fn what_is_free_has_urls()
    ensures { (bytes : List ℕ) (doc : Doc) (d : Data) → IsDocument bytes doc → object_in bytes ≡ Some d
        → (digest : List ℕ) → free_in digest doc.named ≡ (if names_digest digest d then Some (frees_digest digest d) else None) }
{}

/// A document's children are just the digests that the elements of its `manifests` tell.
pub fn children_are_listed()
    ensures { (bytes : List ℕ) (doc : Doc) (d : Data) → IsDocument bytes doc → object_in bytes ≡ Some d
        → (digest : List ℕ) → has_digest digest doc.children ≡ lists_digest digest d }
{}

/// Bytes are at most one document.
pub fn bytes_are_one_document()
    ensures { (bytes : List ℕ) (a b : Doc) → IsDocument bytes a → IsDocument bytes b → a ≡ b }
{}

/// The document that is computed of bytes is the one that they are, and there is one exactly where they are a document.
pub fn documents_are_computed()
    ensures { (bytes : List ℕ) (doc : Doc) → (document_in bytes ≡ Some doc) ↔ IsDocument bytes doc }
{}

/// The document that is computed of a stored manifest is its own, and there is one exactly where the bytes are one.
pub fn stored_manifests_are_computed()
    ensures { (digest bytes : List ℕ) (doc : Doc) → (stored_in digest bytes ≡ Some doc) ↔ IsStoredManifest digest bytes doc }
{}
