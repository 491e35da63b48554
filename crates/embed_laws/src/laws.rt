//! That the library gives what the program prints.
ghost use Rattle.std.specs.Prelude.{◌≡◌, ℕ, List, [], None, Some, map, ⊤};
ghost use Rattle.arrowtab.specs.Prelude.{Answers, Explains, IsFirst, IsQueryRead, OrMemory, RunFault, column_text};
ghost use Rattle.embed.specs.Prelude.{AreLoadable, IsAnswered, IsExport, IsSchema, IsStats, StopsQuery, StopsTexts};
ghost use Rattle.job.specs.Jobs.{text_of_query};
ghost use Rattle.job.specs.declared.jobs.Command.TheVariants as command;
ghost use Rattle.job.specs.declared.jobs.Job.{Job};
ghost use Rattle.job.specs.declared.jobs.Output.{Output};
ghost use Rattle.job.specs.declared.jobs.Output.TheVariants as output;
ghost use Rattle.job.specs.declared.jobs.QuerySource.{QuerySource};

/// What the library gives of files, from their bytes, is what the program prints of them with one worker and without a column; and
/// what stands against it stands against that, and is the first that the program meets where none of its sources fails.
pub fn the_library_gives_what_one_worker_prints()
    ensures stats { (job : Job) (texts : List (List ℕ)) (text : List ℕ) → job.workers ≡ 1 → column_text job ≡ None
        → job.command ≡ command.Stats → IsStats texts text → Answers job (map (λ t. Some t) texts) text }
    ensures schema { (job : Job) (texts : List (List ℕ)) (text : List ℕ) → job.workers ≡ 1 → column_text job ≡ None
        → job.command ≡ command.Schema → IsSchema texts text → Answers job (map (λ t. Some t) texts) text }
    ensures validate { (job : Job) (texts : List (List ℕ)) (text : List ℕ) → job.workers ≡ 1 → column_text job ≡ None
        → job.command ≡ command.Validate → text ≡ [] → AreLoadable texts → Answers job (map (λ t. Some t) texts) text }
    ensures export { (job : Job) (texts : List (List ℕ)) (text : List ℕ) → job.workers ≡ 1 → column_text job ≡ None
        → job.command ≡ command.Export → IsExport texts text → Answers job (map (λ t. Some t) texts) text }
    ensures query { (job : Job) (texts : List (List ℕ)) (text : List ℕ) → job.workers ≡ 1 → column_text job ≡ None
        → (source : QuerySource) → job.command ≡ command.Query source output.Lines → IsAnswered (text_of_query source) texts text
        → Answers job (map (λ t. Some t) texts) text }
    ensures err { (job : Job) (texts : List (List ℕ)) (before after : List ℕ) → job.workers ≡ 1
        → (fault : RunFault) → OrMemory (StopsTexts texts) fault → Explains job (map (λ t. Some t) texts) before after fault }
    ensures query_err { (job : Job) (texts : List (List ℕ)) (before after : List ℕ) → job.workers ≡ 1
        → (source : QuerySource) → column_text job ≡ None → (form : Output) → job.command ≡ command.Query source form
        → (fault : RunFault) → OrMemory (StopsQuery (text_of_query source) texts) fault → Explains job (map (λ t. Some t) texts) before after fault }
    ensures first { (job : Job) (texts : List (List ℕ)) (counts : List ℕ) → column_text job ≡ None → IsQueryRead job.command
        → (fault : RunFault) → OrMemory (StopsTexts texts) fault → IsFirst job (map (λ t. Some t) texts) counts counts ⊤ fault }
    ensures query_first { (job : Job) (texts : List (List ℕ)) (counts : List ℕ) → (source : QuerySource) → column_text job ≡ None
        → (form : Output) → job.command ≡ command.Query source form
        → (fault : RunFault) → OrMemory (StopsQuery (text_of_query source) texts) fault → IsFirst job (map (λ t. Some t) texts) counts counts ⊤ fault }
{}
