//! Laws of the definitions, each the contract of a function that does nothing.
ghost use Rattle.std.specs.Prelude.{◌≡◌, ◌<◌, ◌++◌, ℕ, true, false, List, length, Result, Some, Err, codes, nat_eq};
ghost use Rattle.std.specs.List.{list_any};
ghost use Rattle.std.specs.Str.{is_utf8};
ghost use Rattle.hb_routes.specs.Resources.{is_part, resource_of};
ghost use Rattle.hb_routes.specs.Resources.Resource.{Base, Tags, Uploads, Upload, Blob, Manifest, Project, Rules, Job};
ghost use Rattle.hb_routes.specs.Routes.{IsRouted};
ghost use Rattle.hb_routes.specs.declared.faults.RouteFault.{RouteFault};
ghost use Rattle.hb_routes.specs.declared.routes.Route.{Route};

/// A request has one route, or is refused for one cause. Want of memory is no cause.
pub fn one_route()
    ensures one { (method target : List ℕ) (answer other : Result Route RouteFault)
        → IsRouted method target answer → IsRouted method target other → answer ≡ other }
    ensures no_memory { (method target : List ℕ) → ¬ (IsRouted method target (Err RouteFault.Memory)) }
{}

/// A path that is written for a resource of a repository names it (OCI Distribution Specification 1.1,
/// "Endpoints"), whatever the repository's name is: an ending within the name misleads nobody.
pub fn registry_paths_are_read()
    ensures base { resource_of (codes "/v2/") ≡ Some Base }
    ensures tags { (name : List ℕ) → resource_of (codes "/v2/" ++ (name ++ codes "/tags/list")) ≡ Some (Tags name) }
    ensures uploads { (name : List ℕ) → resource_of (codes "/v2/" ++ (name ++ codes "/blobs/uploads/")) ≡ Some (Uploads name) }
    ensures upload { (name id : List ℕ) → list_any (nat_eq 47) id ≡ false → 0 < length id
        → resource_of (codes "/v2/" ++ (name ++ (codes "/blobs/uploads/" ++ id))) ≡ Some (Upload name id) }
    ensures blob { (name digest : List ℕ) → list_any (nat_eq 47) digest ≡ false
        → resource_of (codes "/v2/" ++ (name ++ (codes "/blobs/" ++ digest))) ≡ Some (Blob name digest) }
    ensures manifest { (name reference : List ℕ) → list_any (nat_eq 47) reference ≡ false
        → resource_of (codes "/v2/" ++ (name ++ (codes "/manifests/" ++ reference))) ≡ Some (Manifest name reference) }
{}

/// A path that is written for a project, its rules or a job names it.
pub fn control_paths_are_read()
    ensures project { (name : List ℕ) → is_part name ≡ true → is_utf8 (codes "/harbor/projects/" ++ name) ≡ true
        → resource_of (codes "/harbor/projects/" ++ name) ≡ Some (Project name) }
    ensures rules { (name : List ℕ) → is_part name ≡ true → is_utf8 (codes "/harbor/projects/" ++ (name ++ codes "/rules")) ≡ true
        → resource_of (codes "/harbor/projects/" ++ (name ++ codes "/rules")) ≡ Some (Rules name) }
    ensures job { (id : List ℕ) → is_part id ≡ true → is_utf8 (codes "/harbor/jobs/" ++ id) ≡ true
        → resource_of (codes "/harbor/jobs/" ++ id) ≡ Some (Job id) }
{}
