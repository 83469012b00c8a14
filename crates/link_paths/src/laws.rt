//! Laws of places.
ghost use Rattle.std.specs.Prelude.{◌≡◌, ◌⊎◌, ℕ, ◌++◌, List, [], ◌∷◌, Option, Some, IsTrue, codes};
ghost use Rattle.std.specs.Ordering.{is_lt, nat_cmp};
ghost use Rattle.std.specs.Cmp.Lexicographic.{slice_cmp};
ghost use Rattle.reg_names.specs.Names.{IsName};
ghost use Rattle.reg_names.specs.Tags.{IsTag};
ghost use Rattle.reg_names.specs.Digests.{IsDigest};
ghost use Rattle.reg_names.specs.UploadIds.{IsUploadId, upload_id_text};
ghost use Rattle.depot_api.specs.Paths.{IsPath, is_below};
ghost use Rattle.link_paths.specs.Places.{layer_path, revision_path, tag_path, tag_index_path, upload_data_path, upload_started_path, place_path, IsPlace};
ghost use Rattle.link_paths.specs.Folders.{repository_folder, tags_folder, revisions_folder, layers_folder, current_link, digest_link, place_parts, IsRevisionOf, IsTagOf, IsLayerOf, IsUploadOf};
ghost use Rattle.reg_names.specs.Reading.{ReadsBack};
ghost use Rattle.link_paths.specs.declared.place.Place.{Place};

/// Each place is where a file may lie.
pub fn places_are_paths()
    ensures { (place : Place) → IsPlace place → IsPath (place_path place) }
{}

/// No two places have one path.
pub fn places_are_apart()
    ensures { (p q : Place) → IsPlace p → IsPlace q → place_path p ≡ place_path q → p ≡ q }
{}

/// What is read exactly from the path of a place is that place.
pub fn places_read_back()
    ensures { (place : Place) (found : Option Place) → IsPlace place → ReadsBack IsPlace place_path (place_path place) found → found ≡ Some place }
{}

/// The parts of each place's path.
pub fn places_by_parts()
    ensures { (place : Place) → IsPlace place → place_path place ≡ place_parts place }
{}

/// What a repository keeps lies below its folders.
pub fn places_begin_with_folders()
    ensures tag { (name tag : List ℕ) → IsName name → IsTag tag → tag_path name tag ≡ tags_folder name ++ current_link tag }
    ensures tag_index { (name tag digest : List ℕ) → IsName name → IsTag tag → IsDigest digest → tag_index_path name tag digest ≡ tags_folder name ++ tag ∷ codes "index" ∷ digest_link digest }
    ensures revision { (name digest : List ℕ) → IsName name → IsDigest digest → revision_path name digest ≡ revisions_folder name ++ digest_link digest }
    ensures layer { (name digest : List ℕ) → IsName name → IsDigest digest → layer_path name digest ≡ layers_folder name ++ digest_link digest }
    ensures upload_data { (name id : List ℕ) → IsName name → IsUploadId id → upload_data_path name id ≡ repository_folder name ++ codes "_uploads" ∷ upload_id_text id ∷ codes "data" ∷ [] }
    ensures upload_started { (name id : List ℕ) → IsName name → IsUploadId id → upload_started_path name id ≡ repository_folder name ++ codes "_uploads" ∷ upload_id_text id ∷ codes "startedat" ∷ [] }
{}

/// The places below a folder of a repository are that repository's, also where its name begins
/// another's.
pub fn folders_are_apart()
    ensures manifests { (name : List ℕ) (place : Place) (rest : List (List ℕ)) → IsName name → IsPlace place → place_path place ≡ repository_folder name ++ codes "_manifests" ∷ rest → IsRevisionOf name place ⊎ IsTagOf name place }
    ensures uploads { (name : List ℕ) (place : Place) (rest : List (List ℕ)) → IsName name → IsPlace place → place_path place ≡ repository_folder name ++ codes "_uploads" ∷ rest → IsUploadOf name place }
    ensures tags { (name : List ℕ) (place : Place) (rest : List (List ℕ)) → IsName name → IsPlace place → place_path place ≡ tags_folder name ++ rest → IsTagOf name place }
    ensures revisions { (name : List ℕ) (place : Place) (rest : List (List ℕ)) → IsName name → IsPlace place → place_path place ≡ revisions_folder name ++ rest → IsRevisionOf name place }
    ensures layers { (name : List ℕ) (place : Place) (rest : List (List ℕ)) → IsName name → IsPlace place → place_path place ≡ layers_folder name ++ rest → IsLayerOf name place }
{}

/// Below one folder, paths are in the order of the parts that follow: of their tags, or of their
/// digests.
pub fn places_are_in_order()
    ensures parts { (folder : List (List ℕ)) (t u : List ℕ) (x y : List (List ℕ)) → IsTrue (is_lt (slice_cmp nat_cmp t u)) → IsTrue (is_below (folder ++ t ∷ x) (folder ++ u ∷ y)) }
    ensures tags { (name t u : List ℕ) → IsName name → IsTag t → IsTag u → is_below (tag_path name t) (tag_path name u) ≡ is_lt (slice_cmp nat_cmp t u) }
    ensures revisions { (name d e : List ℕ) → IsName name → IsDigest d → IsDigest e → is_below (revision_path name d) (revision_path name e) ≡ is_lt (slice_cmp nat_cmp d e) }
    ensures layers { (name d e : List ℕ) → IsName name → IsDigest d → IsDigest e → is_below (layer_path name d) (layer_path name e) ≡ is_lt (slice_cmp nat_cmp d e) }
{}
