//! Laws of the sides of models.

ghost use Rattle.std.specs.Prelude.{◌≡◌, ◌↔◌, ◌^◌, ◌<◌, ◌≤◌, ℕ, List, None, Some, length, option_map, slice_get, true};
ghost use Rattle.std.specs.List.{AllByRecursion};
ghost use Rattle.cgl_model.specs.declared.mip.Model.{Model};
ghost use Rattle.cgl_model.specs.declared.mip.Row.{Row};
ghost use Rattle.cgl_model.specs.declared.integer_forms.RowForm.{RowForm};
ghost use Rattle.cgl_model.specs.declared.integer_forms.RowShape.TheVariants.{Form};
ghost use Rattle.cgl_model.specs.declared.places.Place.{Place};
ghost use Rattle.cgl_model.specs.declared.places.Side.{Side};
ghost use Rattle.cgl_model.specs.Absent.{IsAbsent, IsFormless, IsNowhere, IsSideAt, IsWideAt};
ghost use Rattle.cgl_model.specs.FormList.{form_at, is_wide_at, side_number};
ghost use Rattle.cgl_model.specs.HasDecimals.{HasDecimals};
ghost use Rattle.cgl_model.specs.Feasible.{IsAtLeast, IsAtMost, IsFeasible, MeansItsEnd, MeetsLowerEnd, MeetsUpperEnd};
ghost use Rattle.cgl_model.specs.Inequality.{AreColumnsBelow, Meets, sum_at};
ghost use Rattle.cgl_model.specs.IntegerForm.{forms_of, row_shape};
ghost use Rattle.cgl_model.specs.PlaceOrder.{rank, RanksRise};
ghost use Rattle.cgl_model.specs.Point.{Point};
ghost use Rattle.cgl_model.specs.Rising.{IsRising};
ghost use Rattle.cgl_model.specs.RowEntries.{row_entries};

/// What the sides of a model mean: a point meets a side exactly where it meets the end that the side stands for. The
/// terms of a side, and of a row's form, rise by columns of the model, and no coefficient is 0.
pub fn sides_meaning()
    ensures ends { (m : Model) (x : Point) → HasDecimals m → AllByRecursion (MeansItsEnd m x) (forms_of m).sides }
    ensures feasible { (m : Model) (x : Point) → HasDecimals m → IsFeasible m x → AllByRecursion (λ s. Meets x s.ineq) (forms_of m).sides }
    ensures columns { (m : Model) → AllByRecursion (λ s. AreColumnsBelow (length m.cols) s.ineq.terms) (forms_of m).sides }
    ensures terms { (m : Model) → HasDecimals m → AllByRecursion (λ s. IsRising s.ineq.terms) (forms_of m).sides }
    ensures row_columns { (m : Model) (r : ℕ) (row : Row) (f : RowForm) → row_shape (row_entries m r) row ≡ Form f → AreColumnsBelow (length m.cols) f.coeffs }
    ensures row_terms { (m : Model) (r : ℕ) (row : Row) (f : RowForm) → row_shape (row_entries m r) row ≡ Form f → IsRising f.coeffs }
    ensures lower { (m : Model) (x : Point) (r : ℕ) (row : Row) (f : RowForm) → HasDecimals m → slice_get m.rows r ≡ Some row
        → row_shape (row_entries m r) row ≡ Form f → MeetsLowerEnd m x r row ↔ IsAtLeast f.lo x.d (sum_at x.p f.coeffs) }
    ensures upper { (m : Model) (x : Point) (r : ℕ) (row : Row) (f : RowForm) → HasDecimals m → slice_get m.rows r ≡ Some row
        → row_shape (row_entries m r) row ≡ Form f → MeetsUpperEnd m x r row ↔ IsAtMost f.up x.d (sum_at x.p f.coeffs) }
    ensures shapes { (m : Model) (r : ℕ) → slice_get (forms_of m).rows r ≡ option_map (row_shape (row_entries m r)) (slice_get m.rows r) }
    ensures found { (place : Place) (sides : List Side) (n : ℕ) → side_number place sides ≡ Some n
        → (s : Side) × (slice_get sides n ≡ Some s) × (s.place ≡ place) }
{}

/// What `Forms::find` answers, and `Forms::row_form` and `Forms::wide`: which places of a model have no side, and which
/// rows no form. Sides stand in rising order of their places, so that a place has at most one.
pub fn find_laws()
    ensures absent { (m : Model) (place : Place) → (side_number place (forms_of m).sides ≡ None) ↔ IsAbsent m place }
    ensures formless { (m : Model) (r : ℕ) → (form_at (forms_of m).rows r ≡ None) ↔ IsFormless m r }
    ensures wide { (m : Model) (r : ℕ) → (is_wide_at (forms_of m).rows r ≡ true) ↔ IsWideAt m r }
    ensures rising { (m : Model) → length m.rows ≤ 2 ^ 20 → RanksRise 0 (forms_of m).sides }
    ensures earlier { (sides : List Side) (i k : ℕ) (s t : Side) → RanksRise 0 sides → i < k → slice_get sides i ≡ Some s → slice_get sides k ≡ Some t
        → rank s.place < rank t.place }
    ensures distinct { (sides : List Side) (i k : ℕ) (s t : Side) → RanksRise 0 sides → slice_get sides i ≡ Some s → slice_get sides k ≡ Some t
        → s.place ≡ t.place → i ≡ k }
    ensures none { (place : Place) (sides : List Side) → (side_number place sides ≡ None) ↔ IsNowhere place sides }
    ensures found { (place : Place) (sides : List Side) (n : ℕ) → RanksRise 0 sides → (side_number place sides ≡ Some n) ↔ IsSideAt place sides n }
{}
